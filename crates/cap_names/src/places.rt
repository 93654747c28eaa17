// Places of a text as lines and columns.
ghost use Rattle.std.specs.Prelude.{◌≡◌, ◌-◌, ◌≤◌, ◌<◌, ◌^◌, length};
ghost use Rattle.cap_names.specs.Places.{line_at, column_at};

/// The line and the column, in bytes and from 1, of a place that is at most the length of the text.
pub fn line_column(bytes: &[u8], place: usize) -> (u32, u32)
    requires short { length bytes.now < 2 ^ 32 - 1 }
    requires within { place ≤ length bytes.now }
    ensures line { result.0 ≡ line_at bytes.now place }
    ensures column { result.1 ≡ column_at bytes.now place }
{
    let mut line = 1;
    let mut column = 1;
    'bytes: for byte in &bytes[..place] {
        if *byte == b'\n' {
            line += 1;
            column = 1;
        } else {
            column += 1;
        }
    }
    (line, column)
}
