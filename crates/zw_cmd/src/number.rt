//! Numbers in the arguments of commands.
ghost use Rattle.std.specs.Prelude.{◌≡◌};
ghost use Rattle.zw_def_session.specs.Commands as spec;

use zw_base::are_digits;

/// The number that decimal digits tell, however many they are, where it lies between the two.
pub(crate) fn number_in(least: u64, most: u64, text: &str) -> Option<u64>
    ensures { result ≡ spec.number_in least most text.now }
{
    if !are_digits(text.as_bytes()) {
        return None;
    }
    match text.parse() {
        Ok(number) if least <= number && number <= most => Some(number),
        Ok(_) => None,
        Err(_) => None,
    }
}
