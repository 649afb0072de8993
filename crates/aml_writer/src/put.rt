//! Bytes that are put before others, from the end of a room to its front. The room is a list of bytes, of which those
//! from a place on are put; each call answers the place from which they are then.
ghost use Rattle.std.specs.Prelude.{◌≡◌, ◌≤◌, ◌+◌, ◌++◌, ◌∷◌, length, drop, take, IfSome};
ghost use Rattle.aml_code.specs.Coded.{coded_bytes};
ghost use Rattle.aml_sizes.specs.Items.{written_name};

use aml_code::coded::Coded;
use aml_code::name::{name_bytes, name_len};
use asl_tree::path::{NameSeg, Path};

/// One more byte.
#[tactic(auto, using(std::proofs::lemmas::Grind::common_steps, crate::proofs::Puts::byte_put))]
pub(crate) fn put_byte(out: &mut [u8], at: usize, byte: u8) -> usize
    requires room { 1 ≤ at }
    requires within { at ≤ length out.old }
    ensures at { result + 1 ≡ at }
    ensures bytes { drop result out.new ≡ byte ∷ drop at out.old }
{
    let to = at - 1;
    out[to] = byte;
    to
}

fn paste(out: &mut [u8], to: usize, bytes: &[u8])
    requires { to + length bytes.now ≤ length out.old }
    ensures { out.new ≡ take to out.old ++ bytes.now ++ drop (to + length bytes.now) out.old }
{
    out[to..to + bytes.len()].copy_from_slice(bytes);
}

// More bytes, however many.
#[tactic(auto, using(std::proofs::lemmas::Grind::common_steps, crate::proofs::Puts::pasted))]
#[inline(never)]
fn put_many(out: &mut [u8], at: usize, bytes: &[u8]) -> usize
    requires room { length bytes.now ≤ at }
    requires within { at ≤ length out.old }
    ensures at { result + length bytes.now ≡ at }
    ensures bytes { drop result out.new ≡ bytes.now ++ drop at out.old }
{
    let to = at - bytes.len();
    paste(out, to, bytes);
    to
}

/// More bytes, of which there is mostly one.
pub(crate) fn put(out: &mut [u8], at: usize, bytes: &[u8]) -> usize
    requires room { length bytes.now ≤ at }
    requires within { at ≤ length out.old }
    ensures at { result + length bytes.now ≡ at }
    ensures bytes { drop result out.new ≡ bytes.now ++ drop at out.old }
{
    match bytes {
        [only] => put_byte(out, at, *only),
        _ => put_many(out, at, bytes),
    }
}

/// The bytes of a length or an integer.
pub(crate) fn put_coded(out: &mut [u8], at: usize, coded: Coded) -> usize
    requires count { coded.count ≤ 9 }
    requires room { length (coded_bytes coded) ≤ at }
    requires within { at ≤ length out.old }
    ensures at { result + length (coded_bytes coded) ≡ at }
    ensures bytes { drop result out.new ≡ coded_bytes coded ++ drop at out.old }
{
    put(out, at, &coded.bytes[..coded.count as usize])
}

// The segment of a name that is no more than one.
#[tactic(auto, using(crate::proofs::Puts::single_name))]
fn single(path: &Path) -> Option<&NameSeg>
    ensures { IfSome result (λ segment. written_name path.now ≡ segment.now) }
{
    if path.root || path.up > 0 {
        return None;
    }
    match path.segs.as_slice() {
        [only] => Some(only),
        _ => None,
    }
}

// A name, however many segments it has.
#[tactic(auto, using(std::proofs::lemmas::Grind::common_steps, crate::proofs::Puts::named))]
#[inline(never)]
fn put_path(out: &mut [u8], at: usize, path: &Path) -> usize
    requires room { length (written_name path.now) ≤ at }
    requires within { at ≤ length out.old }
    ensures at { result + length (written_name path.now) ≡ at }
    ensures bytes { drop result out.new ≡ written_name path.now ++ drop at out.old }
{
    if path.segs.len() > 255 {
        return at;
    }
    let to = at - name_len(path);
    name_bytes(path, &mut out[to..]);
    to
}

/// A name, which has mostly one segment.
pub(crate) fn put_name(out: &mut [u8], at: usize, path: &Path) -> usize
    requires room { length (written_name path.now) ≤ at }
    requires within { at ≤ length out.old }
    ensures at { result + length (written_name path.now) ≡ at }
    ensures bytes { drop result out.new ≡ written_name path.now ++ drop at out.old }
{
    match single(path) {
        Some(segment) => put(out, at, segment),
        None => put_path(out, at, path),
    }
}
