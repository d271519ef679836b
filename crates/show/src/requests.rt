//! What a line asks of a sheet.
ghost use Rattle.show.specs.Asking.{Asks, AsksFor};

use sheet::{Call, Lengths};
use text::Kind;

/// Why a line asks for no call.
#[derive(Clone, Copy, Debug, PartialEq, Eq)]
pub enum LineError {
    /// It is a stamp of a text that no name has.
    NoName,
    /// It is none of the calls.
    NoCall,
}

// kept: a public constant of `sheet` would say the three numbers that the definition of a full call writes out
/// The lengths that calls need.
const FULL: Lengths = Lengths {
    list: 128,
    numbers: 32768,
    amounts: 8192,
};

/// The call that a line asks for, lent what calls need at most; or nothing, if it is blank.
pub fn request_of<K: Kind>(line: &[u8]) -> Result<Option<Call<K>>, LineError>
    ensures { Asks K.text K.has line.now result }
{
    if line.is_empty() {
        return Ok(None);
    }
    if let Some(name) = line.strip_prefix(b"stamp ") {
        let name = K::of_text(name).ok_or(LineError::NoName)?;
        return Ok(Some(Call::Stamp(name, FULL)));
    }
    // kept: a match on byte strings leaves its last arm open, as one goal of thirty branches
    if line == b"strike".as_slice() {
        Ok(Some(Call::Strike))
    } else if line == b"next".as_slice() {
        Ok(Some(Call::Next(FULL)))
    } else if line == b"distance".as_slice() {
        Ok(Some(Call::Distance(FULL)))
    } else if line == b"amount".as_slice() {
        Ok(Some(Call::Amount(FULL)))
    } else if line == b"reading".as_slice() {
        Ok(Some(Call::Reading(FULL)))
    } else {
        Err(LineError::NoCall)
    }
}

/// The call that a line asks for, if it asks for one.
pub fn call_of<K: Kind>(line: &[u8]) -> Option<Call<K>>
    ensures { AsksFor K.text K.has line.now result }
{
    request_of::<K>(line).ok().flatten()
}
