// The program's buffers, on the stack: about 1 MB in all, of the 8 MB that a program is usually given. Each comes from a function, so
// that a proof knows its length and does not spell it out. One function of a type and a length would be called with both each time.
ghost use Rattle.std.specs.Prelude.{◌≡◌, length};

// For rule files, end to end: 262,144 bytes, and one more by which it is seen that there are no more.
pub fn rules() -> [u8; 262145]
    ensures { 262145 ≡ length result }
{
    [0; 262145]
}

// For answers that wait to be written.
pub fn out() -> [u8; 262144]
    ensures { 262144 ≡ length result }
{
    [0; 262144]
}

// For a number of each rule file.
pub fn numbers() -> [usize; 256]
    ensures { 256 ≡ length result }
{
    [0; 256]
}
