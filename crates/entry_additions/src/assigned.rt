// The target of an assignment.
ghost use Rattle.std.specs.Prelude.{◌≡◌};
ghost use Rattle.entry_additions.specs.Naming.{is_field_of, is_record_field_of, is_variable_of};
ghost use Rattle.entry_additions.specs.Naming.{named_of};

/// A variable, by its index in its block; or a field of a file, in the record that the temporary
/// `pointer` points to.
#[derive(Clone, Copy)]
pub(crate) enum Assigned {
    Variable { variable: u32 },
    Field { file: u32, field: u32, pointer: u8 },
}

/// Whether it is this variable.
pub(crate) fn is_variable(of: Assigned, variable: u32) -> bool
    ensures { result ≡ is_variable_of (named_of of) variable }
{
    match of {
        Assigned::Variable { variable: own } => variable == own,
        Assigned::Field { .. } => false,
    }
}

/// Whether it is this field, in any record.
pub(crate) fn is_field(of: Assigned, file: u32, field: u32) -> bool
    ensures { result ≡ is_field_of (named_of of) file field }
{
    match of {
        Assigned::Variable { .. } => false,
        Assigned::Field {
            file: own,
            field: place,
            ..
        } => (file == own) & (field == place),
    }
}

/// Whether it is this field in the record that this temporary points to.
pub(crate) fn is_record_field(of: Assigned, file: u32, field: u32, pointer: u8) -> bool
    ensures { result ≡ is_record_field_of (named_of of) file field pointer }
{
    match of {
        Assigned::Variable { .. } => false,
        Assigned::Field {
            file: own,
            field: place,
            pointer: temporary,
        } => (file == own) & (field == place) & (pointer == temporary),
    }
}
