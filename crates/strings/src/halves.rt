// A number that holds two below 65,536, first × 65,536 + second, as a span and the header of a match do. The two are read by a shift and a mask. F-2: "no
// division or remainder in the code reads a start or an end out of a span".
ghost use Rattle.std.specs.Prelude.{◌≡◌, ◌/◌, ◌%◌};
ghost use Rattle.model.specs.Limits.{radix};

// The first of the two, in the upper 16 bits.
pub fn upper(number: u32) -> u32
    ensures { result ≡ number / radix }
{
    number >> 16
}

// The second, in the lower 16 bits.
pub fn lower(number: u32) -> u32
    ensures { result ≡ number % radix }
{
    number & 65535
}
