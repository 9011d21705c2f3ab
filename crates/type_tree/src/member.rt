//! Members of enums and of flags types.

/// A member of an enum.
#[derive(Debug, Drop)]
pub struct EnumMember {
    pub name: String,
    pub nick: String,
    pub number: i32,
}

/// A member of a flags type.
#[derive(Debug, Drop)]
pub struct FlagsMember {
    pub name: String,
    pub nick: String,
    pub bits: u32,
}
