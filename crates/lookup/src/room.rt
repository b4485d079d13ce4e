// The room that a program has for the records of a file.
ghost use Rattle.std.specs.Prelude.{◌≡◌, length, replicate};

// 3,145,728 zeros: room for the records of any file of 65,536 bytes. The most that such a file gives is 2,883,594
// bytes: of all lines the line `.` gives the most for its length, 88 bytes for 2 with the line's end.
pub fn records_buffer() -> [u8; 3145728]
    ensures value { result ≡ replicate 3145728 0 }
    ensures value_2 { 3145728 ≡ length result }
{
    [0; 3145728]
}
