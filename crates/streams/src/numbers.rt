// Numbers as text, with no line end. The answer is whether all of it was written.
use std::io::Print;

pub fn print_decimal(to: &impl Print, n: u64) -> bool {
    to.print(n).is_ok()
}

// In lower case, with zeros in front up to so many digits.
pub fn print_hex(to: &impl Print, n: u64, width: usize) -> bool {
    print!(to; "{n:0width$x}").is_ok()
}
