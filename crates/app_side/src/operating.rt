//! What an instance asks of operations, of the random stream, and for keys that are made of it.

ghost use Rattle.std.specs.Prelude.{◌≡◌, false, IfOk, OnErr};
ghost use Rattle.app_api.specs.declared.ask.Ask.TheVariants.{OpSetKey};
ghost use Rattle.object_asks.specs.KeyOf.{key_comes_to_store, key_resolution};
ghost use Rattle.object_asks.specs.Serving.{objects_in};
ghost use Rattle.operation_asks.specs.Asks.{operation_resolution};
ghost use Rattle.operation_asks.specs.Kept.{state_of};
ghost use Rattle.alone.specs.Crypto.{key_reaches, keyed_by, crypto_resolution};
ghost use Rattle.alone.specs.Families.{family_of};
ghost use Rattle.alone.specs.Machine.{objects_of};
ghost use Rattle.alone.specs.Step.{serve_outcome};
ghost use Rattle.alone.specs.declared.family.Family.TheVariants.{Operations as OfOperations};
ghost use Rattle.app_side.specs.Crypto.{outcome_of, Generates, IsAsBefore, IsMade};
ghost use Rattle.app_side.specs.Serving.{CarriesOut};

use crate::side::AppSide;
use app_api::{Answer, Application, Ask};
use object_asks::{Outcome, Served, answered, generate, key_of, panicked, random_wanted};
use operation_asks::{CryptoOutcome, Outcome as Told};
use store_api::AppStore;
use tee_base::NoMemory;

/// What comes of an ask, as its family tells it.
fn outcome_of(told: Told) -> Outcome
    ensures { result ≡ outcome_of told }
{
    match told {
        Told::Answered(answer) => Outcome::Answered(answer),
        Told::Panicked => Outcome::Panicked,
    }
}

impl<A: Application> AppSide<A> {
    /// Gives the operation the key of the object.
    fn give_key<T: AppStore>(
        &mut self,
        store: &mut T,
        instance: u8,
        op: u32,
        object: u32,
    ) -> Result<Served, NoMemory>
        ensures { CarriesOut T.keeper
            (λ serving m. serve_outcome serving m (OpSetKey op object)
            (keyed_by m instance op (key_resolution (objects_of m) instance object)))
            (key_comes_to_store
            (key_resolution (objects_in self.old.held (T.keeper.contents store.old))
            instance object))
            false instance result self.old self.new store.old store.new }
    {
        let looked = key_of(self.alloc, &self.held, store, instance, object)?;
        self.note(looked.kind);
        let told = self.operations.set_key(instance, op, looked.found);
        Ok(Served {
            kind: looked.kind,
            outcome: outcome_of(told),
        })
    }

    /// Serves an ask about operations or random bytes.
    pub(crate) fn operate<T: AppStore>(
        &mut self,
        store: &mut T,
        instance: u8,
        ask: Ask,
    ) -> Result<Served, NoMemory>
        requires { family_of ask ≡ OfOperations }
        ensures { CarriesOut T.keeper
            (λ serving m. serve_outcome serving m ask (crypto_resolution m instance ask))
            (key_reaches (objects_in self.old.held (T.keeper.contents store.old)) instance
            (operation_resolution (state_of self.old.operations) instance ask))
            false instance result self.old self.new store.old store.new }
    {
        match self.operations.serve(self.alloc, instance, ask)? {
            CryptoOutcome::Settled(told) => Ok(Served::plain(outcome_of(told))),
            CryptoOutcome::WantsKey { op, object } => self.give_key(store, instance, op, object),
        }
    }

    /// Makes a key of the next random bytes, of which none is taken where it isn't made.
    fn generate(&mut self, instance: u8, object: u32, bits: u32) -> Result<Served, NoMemory>
        ensures made { IfOk result (λ done. IsMade instance object bits done self.old self.new) }
        ensures want { OnErr result (IsAsBefore self.old self.new) }
    {
        let Some(count) = random_wanted(&self.held, instance, object, bits) else {
            return Ok(panicked());
        };
        let secret = self.operations.draw(self.alloc, count)?;
        generate(&mut self.held, instance, object, secret.as_slice());
        Ok(answered(Answer::Done))
    }

    /// Serves an ask for a key that is made of random bytes. Any other doesn't come here.
    pub(crate) fn make_key(&mut self, instance: u8, ask: Ask) -> Result<Served, NoMemory>
        ensures { Generates instance ask result self.old self.new }
    {
        match ask {
            Ask::KeyGenerate { object, bits } => self.generate(instance, object, bits),
            _ => {
                drop(ask);
                Ok(panicked())
            }
        }
    }
}
