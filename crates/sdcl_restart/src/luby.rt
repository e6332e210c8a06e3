//! Luby's sequence 1, 1, 2, 1, 1, 2, 4, .. (Luby, Sinclair and Zuckerman, 1993): what stands before
//! the place 2 ^ i - 1 stands there twice, and then comes 2 ^ (i - 1).
ghost use Rattle.std.specs.Prelude.{◌≡◌, ◌≤◌, ◌<◌, ◌^◌};
ghost use Rattle.sdcl_restart.specs.Luby.{luby};

/// The term at a place, counted from 1, in as many steps as the greatest place has bits.
pub fn luby(place: u64) -> u64
    requires first { 1 ≤ place }
    requires room { place < 2 ^ 33 }
    ensures value { result ≡ luby place }
    ensures bounded { result ≤ 2 ^ 32 }
{
    let mut k = place;
    let mut half: u64 = 4_294_967_296;
    // the term is that of k, which is below twice the half
    while k != 2 * half - 1 {
        if k >= half {
            k = k - half + 1;
        }
        half /= 2;
    }
    half
}
