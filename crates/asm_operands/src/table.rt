//! Tables of names.

ghost use Rattle.std.specs.Prelude.{◌≡◌, map};
ghost use Rattle.asm_operands.specs.Numbers.{value_in};

/// The value of the first row with this name, if there is one. Cases differ.
pub fn value_in<T: Copy>(table: &[(&str, T)], name: &str) -> Option<T>
    ensures { result ≡ value_in (map (λ row. (row.0.now, row.1)) table.now) name.now }
{
    for row in table {
        if row.0 == name {
            return Some(row.1);
        }
    }
    None
}
