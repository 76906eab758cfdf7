ghost use Rattle.std.specs.Prelude.{◌↔◌, ◌≡◌, IsTrue};
ghost use Rattle.unit_model.specs.UnitId.{IsUnitId, is_id_byte};

const LONGEST_ID: usize = 140;

/// Whether these bytes may name a unit: 1 to 140 printable ASCII bytes without blank and `/`, and neither `.`
/// nor `..`.
pub fn is_unit_id(id: &[u8]) -> bool
    ensures { IsTrue result ↔ IsUnitId id.now }
{
    match id {
        [] | [b'.'] | [b'.', b'.'] => false,
        _ => id.len() <= LONGEST_ID && id.iter().all(|byte| is_id_byte(*byte)),
    }
}

fn is_id_byte(byte: u8) -> bool
    ensures { result ≡ is_id_byte byte }
{
    0x21 <= byte && byte <= 0x7E && byte != b'/'
}
