//! Reading what stands in front of the dict: the magic bytes, the version and the length of the dict.

ghost use Rattle.std.specs.Prelude.{◌≡◌};
ghost use Rattle.std.specs.Result.{result_map_both};
ghost use Rattle.nd_npy_text.specs.HeaderReading.{magic, or_no_magic, version_numbered, version_in, size_in, text_in, opening_in};
ghost use Rattle.nd_npy_text.specs.HeaderTokens.{after_text};
ghost use Rattle.nd_npy_text.specs.declared.errors.HeaderFlaw.TheVariants.{Beginning};

use crate::errors::{HeaderError, HeaderFlaw};
use crate::header::Version;
use crate::header_tokens::after_text;

const MAGIC: &[u8] = b"\x93NUMPY";

/// Returns what follows the magic bytes.
fn after_magic(bytes: &[u8]) -> Result<&[u8], HeaderError>
    ensures { result_map_both (λ x. x.now) (λ e. e) result ≡ or_no_magic (after_text Beginning magic bytes.now) }
{
    match after_text(HeaderFlaw::Beginning, MAGIC, bytes) {
        Ok(rest) => Ok(rest),
        Err(_) => Err(HeaderError::NoMagic),
    }
}

/// Returns the version with these two numbers, if it is known.
fn version_numbered(major: u8, minor: u8) -> Option<Version>
    ensures { result ≡ version_numbered major minor }
{
    if minor != 0 {
        return None;
    }
    match major {
        1 => Some(Version::One),
        2 => Some(Version::Two),
        3 => Some(Version::Three),
        _ => None,
    }
}

/// Returns the version at the front of `bytes`, and what follows it.
fn version_in(bytes: &[u8]) -> Result<(Version, &[u8]), HeaderError>
    ensures { result_map_both (λ x. (x.0, x.1.now)) (λ e. e) result ≡ version_in bytes.now }
{
    match bytes {
        [major, minor, rest @ ..] => match version_numbered(*major, *minor) {
            Some(version) => Ok((version, rest)),
            None => Err(HeaderError::UnknownVersion {
                major: *major,
                minor: *minor,
            }),
        },
        _ => Err(HeaderError::TooShort),
    }
}

/// Returns the length of the dict at the front of `bytes`, in four bytes if `wide` and in two otherwise, and what
/// follows it.
fn size_in(wide: bool, bytes: &[u8]) -> Result<(usize, &[u8]), HeaderError>
    ensures { result_map_both (λ x. (x.0, x.1.now)) (λ e. e) result ≡ size_in wide bytes.now }
{
    if wide {
        match bytes {
            [a, b, c, d, after @ ..] => Ok((
                *a as usize + *b as usize * 256 + *c as usize * 65536 + *d as usize * 16777216,
                after,
            )),
            _ => Err(HeaderError::TooShort),
        }
    } else {
        match bytes {
            [a, b, after @ ..] => Ok((*a as usize + *b as usize * 256, after)),
            _ => Err(HeaderError::TooShort),
        }
    }
}

/// Returns at which byte of the file the elements begin, and the text of the dict, which ends there; `bytes` are those
/// that follow the version.
#[tactic(auto, unfolding(crate::specs::HeaderReading::text_in))]
fn text_in(version: Version, bytes: &[u8]) -> Result<(usize, &[u8]), HeaderError>
    ensures { result_map_both (λ x. (x.0, x.1.now)) (λ e. e) result ≡ text_in version bytes.now }
{
    match size_in(version.is_wide(), bytes) {
        Ok((size, rest)) => {
            if size > rest.len() {
                return Err(HeaderError::TooShort);
            }
            Ok((version.text_start() + size, &rest[..size]))
        }
        Err(error) => Err(error),
    }
}

/// Returns at which byte of the file the elements begin, and the text of the dict, which ends there.
#[tactic(auto, unfolding(crate::specs::HeaderReading::opening_in))]
pub(crate) fn opening_in(bytes: &[u8]) -> Result<(usize, &[u8]), HeaderError>
    ensures { result_map_both (λ x. (x.0, x.1.now)) (λ e. e) result ≡ opening_in bytes.now }
{
    match after_magic(bytes) {
        Ok(rest) => match version_in(rest) {
            Ok((version, rest)) => text_in(version, rest),
            Err(error) => Err(error),
        },
        Err(error) => Err(error),
    }
}
