// A small round whose whole run is known.
ghost use Rattle.std.specs.Prelude.{◌≡◌};
ghost use Rattle.machine.specs.Example.{small_round, Known};

// r1 = 7, r0 = the next reading, r2 = r0, an idle slot, a record of r1 and r2,
// EXIT.
fn slots() -> [u8; 48]
    ensures { result ≡ small_round }
{
    *b"\xb7\x01\0\0\x07\0\0\0\
       \x85\x00\0\0\x02\0\0\0\
       \xbf\x02\0\0\x00\0\0\0\
       \x05\x00\0\0\x00\0\0\0\
       \x85\x00\0\0\x03\0\0\0\
       \x95\x00\0\0\x00\0\0\0"
}

// A round that takes one reading and records it as sensor 7.
pub fn small_round() -> [u8; 48]
    ensures bytes { result ≡ small_round }
    ensures known { Known result }
{
    slots()
}
