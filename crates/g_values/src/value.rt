//! Values of all kinds.

ghost use Rattle.std.specs.Prelude.{◌≡◌, IfOk};
ghost use Rattle.g_values.specs.View.{kind_view, value_view, value_kind};

use crate::kind::Kind;
use std::alloc::AllocError;
use std::rc::RcStr;
use type_tree::TypeId;
use ui_machine::ObjectId;

/// A value, which carries its kind.
#[derive(Debug, Drop)]
pub enum Value {
    Bool(bool),
    Int(i32),
    UInt(u32),
    Int64(i64),
    UInt64(u64),
    /// A text or null.
    Text(Option<RcStr>),
    /// A number of an enum.
    Enum(TypeId, i32),
    /// A set of bits of a flags type.
    Flags(TypeId, u32),
    /// An object or null, with the declared type.
    Object(TypeId, Option<ObjectId>),
}

/// Returns the kind of a value.
pub fn kind_of(value: &Value) -> Kind
    ensures { kind_view result ≡ value_kind value.now }
{
    match value {
        Value::Bool(_) => Kind::Bool,
        Value::Int(_) => Kind::Int,
        Value::UInt(_) => Kind::UInt,
        Value::Int64(_) => Kind::Int64,
        Value::UInt64(_) => Kind::UInt64,
        Value::Text(_) => Kind::Text,
        Value::Enum(t, _) => Kind::Enum(*t),
        Value::Flags(t, _) => Kind::Flags(*t),
        Value::Object(t, _) => Kind::Object(*t),
    }
}

impl Value {
    /// Copies the value. A text is shared, not copied, so copying fails only if a text has 2^64 - 1 sharers.
    ///
    /// # Errors
    ///
    /// `AllocError` if memory is refused.
    pub fn copied(&self) -> Result<Value, AllocError>
        ensures value { IfOk result (λ v. value_view v ≡ value_view self.now) }
        ensures kind { IfOk result (λ v. value_kind v ≡ value_kind self.now) }
    {
        match self {
            Value::Bool(b) => Ok(Value::Bool(*b)),
            Value::Int(n) => Ok(Value::Int(*n)),
            Value::UInt(n) => Ok(Value::UInt(*n)),
            Value::Int64(n) => Ok(Value::Int64(*n)),
            Value::UInt64(n) => Ok(Value::UInt64(*n)),
            Value::Text(None) => Ok(Value::Text(None)),
            Value::Text(Some(text)) => Ok(Value::Text(Some(text.clone()?))),
            Value::Enum(t, n) => Ok(Value::Enum(*t, *n)),
            Value::Flags(t, bits) => Ok(Value::Flags(*t, *bits)),
            Value::Object(t, id) => Ok(Value::Object(*t, *id)),
        }
    }
}
