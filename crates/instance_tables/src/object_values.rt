//! Values that hold or name objects.

ghost use Rattle.std.specs.Prelude.{◌≡◌, true, false, None, map};
ghost use Rattle.ui_machine.specs.Definition.Values as values;
ghost use Rattle.ui_machine.specs.Rules.Disposal.{names_object, is_object};
ghost use Rattle.g_values.specs.View.{value_view};
ghost use Rattle.instance_tables.specs.Names.{names_any};
ghost use Rattle.instance_tables.specs.Store.{id_of, named_by};
ghost use Rattle.instance_tables.specs.Weak.{masked, forgotten_value, dropped_value};

use g_values::Value;
use ui_machine::ObjectId;

/// Returns the object that a value names, if it names one.
pub(crate) fn named(value: &Value) -> Option<ObjectId>
    ensures { id_of result ≡ named_by (value_view value.now) }
{
    match value {
        Value::Object(_, id) => *id,
        _ => None,
    }
}

// Returns whether a value names the object.
fn names(value: &Value, id: ObjectId) -> bool
    ensures { result ≡ names_object id.0 (value_view value.now) }
{
    match value {
        Value::Object(_, Some(named)) => named.0 == id.0,
        _ => false,
    }
}

/// Returns whether one of these values names the object.
pub(crate) fn is_named(values: &[Value], id: ObjectId) -> bool
    ensures { result ≡ names_any id.0 (map value_view values.now) }
{
    'values: for value in values {
        if names(value, id) {
            return true;
        }
    }
    false
}

// Sets an object value to null. Other values stay as they are.
fn make_null(value: &mut Value)
    ensures null { is_object (value_view value.old) ≡ true → value_view value.new ≡ values.object None }
    ensures other { is_object (value_view value.old) ≡ false → value.new ≡ value.old }
{
    let Value::Object(class, _) = &*value else {
        return;
    };
    let class = *class;
    *value = Value::Object(class, None);
}

// Sets a value to null if it is weak and names the object.
fn forget_value(value: &mut Value, is_weak: bool, id: ObjectId)
    ensures { value_view value.new ≡ forgotten_value id.0 is_weak (value_view value.old) }
{
    if is_weak && names(value, id) {
        make_null(value);
    }
}

/// Sets the weak values that name the object to null.
pub(crate) fn forget_values(values: &mut [Value], weak: &[bool], id: ObjectId)
    ensures { map value_view values.new ≡ masked (forgotten_value id.0) weak.now (map value_view values.old) }
{
    let count = values.len().min(weak.len());
    for slot in 0..count {
        forget_value(&mut values[slot], weak[slot], id);
    }
}

// Sets a value of an object kind to null if it is strong.
fn drop_value(value: &mut Value, is_weak: bool)
    ensures { value_view value.new ≡ dropped_value is_weak (value_view value.old) }
{
    if !is_weak {
        make_null(value);
    }
}

/// Sets the strong values of an object kind to null.
pub(crate) fn drop_values(values: &mut [Value], weak: &[bool])
    ensures { map value_view values.new ≡ masked dropped_value weak.now (map value_view values.old) }
{
    let count = values.len().min(weak.len());
    for slot in 0..count {
        drop_value(&mut values[slot], weak[slot]);
    }
}
