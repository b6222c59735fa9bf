// Calls for tests alone: numerals and conversions under plain names, so that a program in another language can run them beside its own.
#![tactic(auto)]

ghost use Rattle.std.specs.Prelude.{◌≡◌};
ghost use Rattle.std.specs.Float.{binary64};
ghost use Rattle.std.specs.Float.Ieee.{of_bits, to_bits};
ghost use Rattle.rules.specs.Floats.{widened, narrowed, times};
ghost use Rattle.rules.specs.Numerals.{numeral_bits};
ghost use Rattle.boost.specs.Numeral.{answer_of};
ghost use Rattle.probe.specs.Packed.{packed};

// What one counts in the upper 32 bits.
const UPPER: u64 = 0x1_0000_0000;

// A refusal's number in the upper 32 bits, or the float's bits in the lower.
// Stays: the C interface has the refusal and the bits in one number.
#[unsafe(no_mangle)]
pub extern "C" fn probe_numeral(text: &[u8]) -> u64
    ensures { result ≡ packed (answer_of (numeral_bits text.now)) }
{
    match boost::numeral::numeral(text) {
        Err(refusal) => (refusal as u64) * UPPER,
        Ok(bits) => bits as u64,
    }
}

#[unsafe(no_mangle)]
pub extern "C" fn probe_widen(b: u32) -> u64
    ensures { result ≡ to_bits binary64 (widened b) }
{
    floats::bits::widen(b)
}

#[unsafe(no_mangle)]
pub extern "C" fn probe_narrow(b: u64) -> u32
    ensures { result ≡ narrowed (of_bits binary64 b) }
{
    floats::bits::narrow(b)
}

#[unsafe(no_mangle)]
pub extern "C" fn probe_product(a: u32, b: u32) -> u32
    ensures { result ≡ times a b }
{
    floats::sums::product(a, b)
}
