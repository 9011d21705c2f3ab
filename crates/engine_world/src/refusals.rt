//! The refusal of requests that name an object which the builder has let go.

ghost use Rattle.std.specs.Prelude.{◌≡◌, map};
ghost use Rattle.std.specs.List.{list_any};
ghost use Rattle.ui_machine.specs.State.Config.{builder_entry};
ghost use Rattle.ui_machine.specs.Rules.Events.{is_released, gives_released, names_released};
ghost use Rattle.definition_format.specs.Meaning.{given_view, request_of};
ghost use Rattle.engine_world.specs.View.{world_of};

use crate::world::World;
use definition_format::{Given, Request};
use ui_machine::Place;

impl World {
    // Returns whether the builder has let the object of a place go.
    fn is_released(&self, place: Place) -> bool
        ensures { result ≡ is_released (builder_entry (world_of self.now) place.0) }
    {
        self.held(place).is_released()
    }

    // Returns whether what is given is an object that the builder has let go.
    fn gives_released(&self, given: &Given) -> bool
        ensures { result ≡ gives_released (world_of self.now) (given_view given.now) }
    {
        match given {
            Given::Value(_) => false,
            Given::Object(place) => self.is_released(*place),
        }
    }

    // Returns whether something of what is given is an object that the builder has let go.
    fn any_released(&self, given: &[Given]) -> bool
        ensures { result ≡ list_any (gives_released (world_of self.now)) (map given_view given.now) }
    {
        let mut left = given;
        'given: while let [first, others @ ..] = left {
            if self.gives_released(first) {
                return true;
            }
            left = others;
        }
        false
    }

    /// Returns whether a request names an object that the builder has let go, in any position.
    pub fn names_released(&self, request: &Request) -> bool
        ensures { result ≡ names_released (world_of self.now) (request_of request.now) }
    {
        match request {
            Request::Set { place, given, .. } => self.is_released(*place)
                || self.gives_released(given),
            Request::Get { place, .. } => self.is_released(*place),
            Request::Emit { place, args, .. } => self.is_released(*place)
                || self.any_released(args.as_slice()),
            Request::Release { place } => self.is_released(*place),
        }
    }
}
