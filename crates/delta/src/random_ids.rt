ghost use Rattle.std.specs.Prelude.{false, []};

use lake_io::Ids;
use rand::Rng;
use uuid::Uuid;

/// Version 4 UUIDs of a generator (RFC 9562, section 5.4). It does not tell that they differ.
#[derive(Drop)]
pub struct RandomIds<R: Rng + Drop> {
    generator: R,
    last: u128,
}

impl<R: Rng + Drop> RandomIds<R> {
    /// The ids of this generator, of which none was given.
    pub fn new(generator: R) -> Self {
        RandomIds { generator, last: 0 }
    }
}

impl<R: Rng + Drop> Ids for RandomIds<R> {
    ghost last = { λ s. s.last };

    ghost differ = { λ _. false };

    ghost given = { λ _. [] };

    fn next(&mut self) -> u128 {
        self.last = Uuid::new_v4(&mut self.generator).as_u128();
        self.last
    }
}
