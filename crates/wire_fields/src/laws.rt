//! Laws of the definitions. Each function only carries its statement.

ghost use Rattle.wire_fields.specs.Laws.{FieldsAreNumbers, SpelledIsRead, FieldsAreOne};

/// Bytes are fields in order exactly where the numbers at the fields' places are theirs.
pub fn fields_are_numbers()
    ensures { FieldsAreNumbers }
{}

/// What spells fields is read as them, whatever follows, and is as long as their widths say.
pub fn spelled_is_read()
    ensures { SpelledIsRead }
{}

/// Bytes are fields of given widths in one way at most.
pub fn fields_are_one()
    ensures { FieldsAreOne }
{}
