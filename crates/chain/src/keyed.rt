// What a chain works under.
ghost use Rattle.std.specs.Prelude.{◌≡◌};
ghost use Rattle.cipher.specs.Ciphers.{table_at};
ghost use Rattle.chain.specs.Rounds.{rounds_bits, rounds_of, key_blocks};

use crate::Rounds;
use keys::KeyBlocks;
use settings::Settings;

// The cipher by its number and its lent table, which is that cipher's (`lent`), the settings, and the round keys of the keys that they use,
// all made once for a call. That the round keys are those of some keys (`Expanded`) is asked by the four functions that a caller calls: as a
// ghost field it would lie in the record, and no proof could rewrite the algorithm's number beside it.
#[derive(Clone, Copy)]
pub struct Keyed<'a> {
    pub table: &'a cipher::Table,
    pub cipher: usize,
    pub settings: Settings,
    pub rounds: Rounds,
    ghost lent: { table.now ≡ table_at cipher },
}

impl<'a> Keyed<'a> {
    pub fn new(
        table: &'a cipher::Table,
        cipher: usize,
        settings: Settings,
        keys: KeyBlocks,
    ) -> Keyed<'a>
        requires { table.now ≡ table_at cipher }
        ensures { (result.table ≡ table.entry) × (result.cipher ≡ cipher) × (result.settings ≡ settings) × (rounds_bits result.rounds ≡ rounds_of cipher settings.algorithm (key_blocks cipher keys)) }
    {
        let rounds = crate::expand(table, cipher, settings.algorithm, keys);
        Keyed {
            table,
            cipher,
            settings,
            rounds,
        }
    }
}
