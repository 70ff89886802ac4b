// The year of the plate, from the bytes of the file that has it.
ghost use Rattle.std.specs.Prelude.{◌≡◌};
ghost use Rattle.text.specs.Text.{year_in};

// The year of a file of two bytes, low and then high. A file of another length has the year 0.
pub fn year_in(file: &[u8]) -> u16
    ensures { result ≡ year_in file.now }
{
    match file {
        [low, high] => u16::from_le_bytes([*low, *high]),
        _ => 0,
    }
}
