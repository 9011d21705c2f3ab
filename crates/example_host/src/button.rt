//! The definition that the host runs, and the events that it makes for it.

use definition_format::{Event, Given, Request};
use definitions::Definition;
use g_values::Value;
use std::alloc::Global;
use ui_machine::{Place, SignalId, Slot};

/// A button in a row of a panel. As it is clicked its peer, a tally, adds the button's step; in the next turn the button shows the sum.
pub const DEFINITION: &str = r#"{
  "format": 1,
  "shapes": [
    {
      "name": "Tally",
      "methods": [
        {"name": "add", "params": ["int64"], "result": "int64"},
        {"name": "read", "result": "int64"}
      ]
    }
  ],
  "classes": [
    {"name": "Panel"},
    {"name": "Row", "parent": "Panel"},
    {
      "name": "Button",
      "shape": "Tally",
      "properties": [
        {"name": "step", "kind": "int64", "default": 1},
        {"name": "total", "kind": "int64"},
        {"name": "panel", "kind": "object:Panel"}
      ],
      "signals": [{"name": "clicked"}],
      "class-handlers": [["clicked", "count"]]
    }
  ],
  "programs": [
    {
      "name": "count",
      "params": ["some:Button"],
      "registers": 2,
      "blocks": [
        {
          "code": [
            ["get", 1, 0, "step"],
            ["call", 1, 0, "add", [1]],
            ["idle", 1, "show", 200, 0],
            ["return", null]
          ]
        }
      ]
    },
    {
      "name": "show",
      "params": ["some:Button"],
      "registers": 2,
      "result": "bool",
      "blocks": [
        {
          "code": [
            ["call", 1, 0, "read", []],
            ["set", 0, "total", 1],
            ["const", 1, "bool", false],
            ["return", 1]
          ]
        }
      ]
    }
  ],
  "objects": [
    {"id": "row", "class": "Row"},
    {
      "id": "button",
      "class": "Button",
      "peer": "clicks",
      "properties": [{"name": "panel", "value": "row"}]
    }
  ]
}"#;

/// The button of the definition: its place, and what events name of its class, looked up once.
#[derive(Clone, Copy)]
pub struct Button {
    place: Place,
    step: Slot,
    total: Slot,
    panel: Slot,
    clicked: SignalId,
}

impl Button {
    /// The button, if the definition has it.
    pub fn find(definition: &Definition) -> Option<Button> {
        let place = definition.object_place("button")?;
        let class = definition.class_at(place);
        Some(Button {
            place,
            step: definition.slot(class, "step")?,
            total: definition.slot(class, "total")?,
            panel: definition.slot(class, "panel")?,
            clicked: definition.signal_number(class, "clicked")?,
        })
    }

    /// The step is set.
    pub fn set_step(&self, step: Value) -> Event {
        Event::Request(Request::Set {
            place: self.place,
            slot: self.step,
            given: Given::Value(step),
        })
    }

    /// The button is clicked.
    pub fn click(&self, alloc: Global) -> Event {
        Event::Request(Request::Emit {
            place: self.place,
            signal: self.clicked,
            args: Vec::new(alloc),
            detail: None,
        })
    }

    /// The total is read.
    pub fn get_total(&self) -> Event {
        self.get(self.total)
    }

    /// The panel that the button is in is read.
    pub fn get_panel(&self) -> Event {
        self.get(self.panel)
    }

    // A property is read.
    fn get(&self, slot: Slot) -> Event {
        Event::Request(Request::Get {
            place: self.place,
            slot,
        })
    }
}
