ghost use Rattle.std.specs.Prelude.{◌≡◌, map, slice_get};
ghost use Rattle.std.specs.String.{string_bytes};
ghost use Rattle.camera_words.specs.Words.{camera_of, search_of, discover_of, description_of};

use crate::addresses::address_in;

/// The address of all devices of the own network.
const BROADCAST: u32 = u32::MAX;

/// The address that follows the command's name, or its place.
pub(crate) fn camera_at(words: &[String]) -> Result<u32, u32>
    ensures { result ≡ camera_of 1 (slice_get (map (λ word. string_bytes word) words.now) 1) }
{
    match words.get(1) {
        Some(word) => match address_in(word.as_bytes()) {
            Some(address) => Ok(address),
            None => Err(1),
        },
        None => Err(1),
    }
}

/// The same, or the broadcast address where no word follows.
fn search_at(words: &[String]) -> Result<u32, u32>
    ensures { result ≡ search_of 1 (slice_get (map (λ word. string_bytes word) words.now) 1) }
{
    match words.get(1) {
        Some(word) => match address_in(word.as_bytes()) {
            Some(address) => Ok(address),
            None => Err(1),
        },
        None => Ok(BROADCAST),
    }
}

/// Where `discover` looks for cameras, or the place, from 0, of the first word with which no command line goes on.
pub fn read_discover(words: &[String]) -> Result<u32, u32>
    ensures { result ≡ discover_of (map (λ word. string_bytes word) words.now) }
{
    let address = search_at(words)?;
    match words.get(2) {
        Some(_) => Err(2),
        None => Ok(address),
    }
}

/// Which camera's description is wanted, or the place, from 0, of the first word with which no command line goes
/// on. Where more words are wanted it is their number.
pub fn read_description(words: &[String]) -> Result<u32, u32>
    ensures { result ≡ description_of (map (λ word. string_bytes word) words.now) }
{
    let address = camera_at(words)?;
    match words.get(2) {
        Some(_) => Err(2),
        None => Ok(address),
    }
}
