// Where a datagram came from. The member table tells twins apart by it.
#![tactic(auto)]

ghost use Rattle.std.specs.Prelude.{◌≡◌};
ghost use Rattle.origin.specs.Origins.{same_bytes, same_origin};
ghost use Rattle.origin.specs.Laws.{same_origin_per, same_origin_equiv};

// An address of sixteen bytes and a port.
#[repr(C)]
#[derive(Clone, Copy)]
pub struct Origin {
    pub address: [u8; 16],
    pub port: u16,
}

// Whether two addresses are equal, byte for byte. A loop, where std's `==` has no operand that a wrong program could change.
fn same_address(a: &[u8; 16], b: &[u8; 16]) -> bool
    ensures { result ≡ same_bytes a.now b.now }
{
    for i in 0..16 {
        if a[i] != b[i] {
            return false;
        }
    }
    true
}

// By hand, with a derive's body: a derived `==` would promise std's comparison, and not the definition of specs/.
impl PartialEq for Origin {
    ghost eq = { same_origin };

    ghost laws = { same_origin_per };

    #[tactic(auto, unfolding(crate::specs::Origins::same_origin))]
    fn eq(&self, other: &Origin) -> bool {
        same_address(&self.address, &other.address) && self.port == other.port
    }
}

impl Eq for Origin {
    ghost laws = { same_origin_equiv };
}
