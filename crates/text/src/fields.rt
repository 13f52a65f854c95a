// The fields of a line, parted by single tabs. An empty line has one empty field.
ghost use Rattle.std.specs.Prelude.{◌≡◌, length};
ghost use Rattle.text.specs.Fields.{fields, field_at};

pub const TAB: u8 = b'\t';

// How many fields the line has.
#[tactic(auto, using(crate::specs::FieldsLaws::fields_count))]
pub fn count(line: &[u8]) -> usize
    ensures { result ≡ length (fields line.now) }
{
    line.iter().filter(|c| **c == TAB).count() + 1
}

// The n-th field, from 0 on, as a part of the line. From `count` on there is none, and the part is empty.
pub fn nth(line: &[u8], n: usize) -> &[u8]
    ensures { result.now ≡ field_at line.now n }
{
    line.split(|c| *c == TAB).nth(n).unwrap_or(&[])
}
