//! Numbers whose digits are cut.

ghost use Rattle.std.specs.Prelude.{◌↔◌, IsTrue};
ghost use Rattle.cert_words.specs.Completions.{CanBecome};

/// Whether more digits after those of a number can make a number from the least to the greatest.
pub fn can_become(number: u64, least: u64, greatest: u64) -> bool
    ensures { IsTrue result ↔ CanBecome number least greatest }
{
    if number == 0 || greatest < least {
        return false;
    }
    let mut low = least / 10;
    let mut high = greatest / 10;
    while number <= high {
        if low <= number {
            return true;
        }
        low /= 10;
        high /= 10;
    }
    false
}
