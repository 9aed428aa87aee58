// What entry k of a made section names: the same in every sweep, which says for itself which entries are fields.
ghost use Rattle.std.specs.Prelude.{◌≡◌};
ghost use Rattle.report.specs.Recipe as Recipe;

// The entry's header byte and its byte 3: a field, 1 and 2 in turn, or a digital service.
pub fn named(field: bool, turn: u64, k: u64) -> [u8; 2]
    ensures { result ≡ Recipe.names field turn k }
{
    if field {
        return [0x80, (0x7E + turn % 2) as u8];
    }
    let number = ((k % 16 * 17 + 5) % 63 + 1) as u8;
    [0x80 + number, 0xC0 + number]
}
