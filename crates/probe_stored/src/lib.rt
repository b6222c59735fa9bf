// The checks of `stored` for programs in other languages: for tests alone, which link this crate's archive.
#![tactic(auto)]

ghost use Rattle.std.specs.Prelude.{◌≡◌};
ghost use Rattle.rules.specs.Reading.{number_of, read_for_rewriting, read_for_selection};
ghost use Rattle.rules.specs.Lists.{read_list};
ghost use Rattle.probe_stored.specs.Probe.{weight_read, largest_read};

use lists::check_list;
use measures::{largest, weight};
use stored::read::{for_rewriting, for_selection};

// Stays: the C interface has a refusal as a number, here and in the two calls behind it.
#[unsafe(no_mangle)]
pub extern "C" fn probe_for_rewriting(s: &[u8]) -> u8
    ensures { result ≡ number_of (read_for_rewriting s.now) }
{
    match for_rewriting(s) {
        Ok(()) => 0,
        Err(r) => u8::from(r),
    }
}

#[unsafe(no_mangle)]
pub extern "C" fn probe_for_selection(s: &[u8]) -> u8
    ensures { result ≡ number_of (read_for_selection s.now) }
{
    match for_selection(s) {
        Ok(()) => 0,
        Err(r) => u8::from(r),
    }
}

#[unsafe(no_mangle)]
pub extern "C" fn probe_list(l: &[u8]) -> u8
    ensures { result ≡ number_of (read_list l.now) }
{
    match check_list(l) {
        Ok(()) => 0,
        Err(r) => u8::from(r),
    }
}

// 0 where selection does not read a query.
// Stays: the C interface has a number, and `weight_read` and `largest_read` give 0.
#[unsafe(no_mangle)]
pub extern "C" fn probe_weight(s: &[u8]) -> usize
    ensures { result ≡ weight_read (read_for_selection s.now) }
{
    match for_selection(s) {
        Ok(()) => weight(s),
        Err(_) => 0,
    }
}

#[unsafe(no_mangle)]
pub extern "C" fn probe_largest(s: &[u8]) -> usize
    ensures { result ≡ largest_read (read_for_selection s.now) }
{
    match for_selection(s) {
        Ok(()) => largest(s),
        Err(_) => 0,
    }
}
