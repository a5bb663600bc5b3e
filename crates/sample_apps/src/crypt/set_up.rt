//! Command 1 of Crypt: the asks that set up an operation, each after the answer to the one before.

ghost use Rattle.std.specs.Prelude.{◌≡◌, IfOk};
ghost use Rattle.app_kit.specs.Reactions.{ask_for};
ghost use Rattle.sample_apps.specs.CryptSetUp as rows;

use crate::crypt::commands::Plan;
use crate::crypt::{Class, Crypt, Waiting};
use app_api::{Answer, Ask, Outs};
use std::alloc::Global;
use std::mem;
use tee_base::{Bytes, Code, NoMemory, keys};

/// How many bits a tag has.
const TAG_BITS: u32 = 128;

/// The kind of an algorithm's keys; none for a digest and for what is no algorithm.
#[tactic(auto, unfolding(crate::specs::CryptSetUp::key_kind))]
fn key_kind(alg: u32) -> Option<u32>
    ensures { result ≡ rows.key_kind alg }
{
    match alg {
        keys::AES_ECB | keys::AES_CBC | keys::AES_CTR | keys::AES_GCM | keys::AES_CMAC => {
            Some(keys::KIND_AES)
        }
        keys::HMAC_SHA256 => Some(keys::KIND_HMAC_SHA256),
        keys::HMAC_SHA384 => Some(keys::KIND_HMAC_SHA384),
        keys::HMAC_SHA512 => Some(keys::KIND_HMAC_SHA512),
        _ => None,
    }
}

/// The greatest size in bits of a key of that kind.
fn greatest_size(kind: Option<u32>) -> u32
    ensures { result ≡ rows.greatest_size kind }
{
    match kind {
        None => 0,
        Some(keys::KIND_AES) => 256,
        Some(_) => 1_024,
    }
}

/// The size of a key in bits, and the greatest number where it doesn't fit 32 bits.
#[tactic(auto, unfolding(crate::specs::CryptSetUp::bits_of))]
fn bits_of(key: &Bytes) -> u32
    ensures { result ≡ rows.bits_of key.now }
{
    if key.len() > u32::MAX as usize / 8 {
        return u32::MAX;
    }
    key.len() as u32 * 8
}

impl Plan {
    /// The plan; an empty one is left in its place.
    pub fn take(&mut self, alloc: Global) -> Plan
        ensures { result ≡ self.old }
    {
        let (key, iv) = (Bytes::empty(alloc), Bytes::empty(alloc));
        mem::replace(
            self,
            Plan {
                alg: 0,
                mode: 0,
                key,
                iv,
            },
        )
    }
}

impl Class {
    /// The class; another is left in its place.
    pub fn take(&mut self) -> Class
        ensures { result ≡ self.old }
    {
        mem::replace(self, Class::Digest)
    }

    /// What an operation of an algorithm with a key of that kind computes.
    fn of(alg: u32, kind: Option<u32>, iv: Bytes) -> Class
        ensures { result ≡ rows.class_of alg kind iv }
    {
        let Some(kind) = kind else {
            return Class::Digest;
        };
        match alg {
            keys::AES_GCM => Class::Ae { nonce: iv },
            keys::AES_CMAC => Class::Mac,
            _ if kind == keys::KIND_AES => Class::Cipher { iv },
            _ => Class::Mac,
        }
    }

    /// The ask that begins a message; a digest needs none.
    #[tactic(auto, unfolding(crate::specs::CryptSetUp::beginning_of))]
    pub fn beginning(&self, alloc: Global, op: u32) -> Result<Option<Ask>, NoMemory>
        ensures { IfOk result (λ ask. ask ≡ rows.beginning_of op self.now) }
    {
        match self {
            Class::Cipher { iv } => Ok(Some(Ask::CipherInit {
                op,
                iv: iv.copy(alloc)?,
            })),
            Class::Ae { nonce } => Ok(Some(Ask::AeInit {
                op,
                nonce: nonce.copy(alloc)?,
                tag_bits: TAG_BITS,
            })),
            Class::Mac => Ok(Some(Ask::MacInit { op })),
            Class::Digest => Ok(None),
        }
    }
}

impl Crypt {
    /// First the operation of before goes.
    pub fn set_up(&mut self, plan: Plan) -> Ask
        ensures { ask_for self.new result ≡ rows.set_up self.old plan }
    {
        let op = mem::replace(&mut self.op, 0);
        self.set_class(None);
        self.wait_for(Waiting::Freeing { plan }, Ask::OpFree { op })
    }

    #[tactic(auto, unfolding(crate::specs::CryptSetUp::after_op_free))]
    pub fn after_op_free(&mut self, plan: Plan, answer: Answer) -> Ask
        ensures { ask_for self.new result ≡ rows.after_op_free self.old plan answer }
    {
        match answer {
            Answer::Done => {
                let ask = Ask::OpNew {
                    alg: plan.alg,
                    mode: plan.mode,
                    max_bits: greatest_size(key_kind(plan.alg)),
                };
                self.wait_for(Waiting::Allocating { plan }, ask)
            }
            other => {
                drop(plan);
                self.refuse(other)
            }
        }
    }

    #[tactic(auto, unfolding(crate::specs::CryptSetUp::after_op_new))]
    pub fn after_op_new(&mut self, plan: Plan, answer: Answer) -> Ask
        ensures { ask_for self.new result ≡ rows.after_op_new self.old plan answer }
    {
        match answer {
            Answer::Number(op) => {
                self.op = op;
                self.make_key(plan)
            }
            other => {
                drop(plan);
                self.refuse(other)
            }
        }
    }

    /// An algorithm with a key gets an object for it.
    fn make_key(&mut self, plan: Plan) -> Ask
        ensures { ask_for self.new result
            ≡ rows.key_or_readiness self.old plan (rows.key_kind plan.alg) }
    {
        let Plan { alg, key, iv, .. } = plan;
        let Some(kind) = key_kind(alg) else {
            drop(key);
            drop(iv);
            return self.be_ready(Class::Digest);
        };
        let ask = Ask::KeyNew {
            kind,
            max_bits: bits_of(&key),
        };
        let class = Class::of(alg, Some(kind), iv);
        self.wait_for(Waiting::MakingKey { key, class }, ask)
    }

    #[tactic(auto, unfolding(crate::specs::CryptSetUp::after_key_new))]
    pub fn after_key_new(&mut self, key: Bytes, class: Class, answer: Answer) -> Ask
        ensures { ask_for self.new result ≡ rows.after_key_new self.old key class answer }
    {
        match answer {
            Answer::Number(object) => self.wait_for(
                Waiting::FillingKey { object, class },
                Ask::KeyPopulate {
                    object,
                    secret: key,
                },
            ),
            other => {
                drop(key);
                drop(class);
                self.refuse(other)
            }
        }
    }

    #[tactic(auto, unfolding(crate::specs::CryptSetUp::after_key_populate))]
    pub fn after_key_populate(&mut self, object: u32, class: Class, answer: Answer) -> Ask
        ensures { ask_for self.new result ≡ rows.after_key_populate self.old object class answer }
    {
        match answer {
            Answer::Done => {
                let op = self.op;
                self.wait_for(
                    Waiting::SettingKey { object, class },
                    Ask::OpSetKey { op, object },
                )
            }
            other => {
                drop(class);
                self.refuse(other)
            }
        }
    }

    #[tactic(auto, unfolding(crate::specs::CryptSetUp::after_op_set_key))]
    pub fn after_op_set_key(&mut self, object: u32, class: Class, answer: Answer) -> Ask
        ensures { ask_for self.new result ≡ rows.after_op_set_key self.old object class answer }
    {
        match answer {
            Answer::Done => {
                self.wait_for(Waiting::ClosingKey { class }, Ask::ObjClose { object })
            }
            other => {
                drop(class);
                self.refuse(other)
            }
        }
    }

    /// The beginning is the ask that begins a message.
    #[tactic(auto, unfolding(crate::specs::CryptSetUp::after_key_close))]
    pub fn after_key_close(&mut self, class: Class, beginning: Option<Ask>, answer: Answer) -> Ask
        ensures { ask_for self.new result ≡ rows.after_key_close self.old class beginning answer }
    {
        match answer {
            Answer::Done => match beginning {
                Some(ask) => self.wait_for(Waiting::Beginning { class }, ask),
                None => self.be_ready(class),
            },
            other => {
                drop(class);
                drop(beginning);
                self.refuse(other)
            }
        }
    }

    #[tactic(auto, unfolding(crate::specs::CryptSetUp::after_first_beginning))]
    pub fn after_first_beginning(&mut self, class: Class, answer: Answer) -> Ask
        ensures { ask_for self.new result ≡ rows.after_first_beginning self.old class answer }
    {
        match answer {
            Answer::Done => self.be_ready(class),
            other => {
                drop(class);
                self.refuse(other)
            }
        }
    }

    /// The operation is set up.
    fn be_ready(&mut self, class: Class) -> Ask
        ensures { ask_for self.new result ≡ rows.readiness self.old class }
    {
        self.set_class(Some(class));
        self.succeed(Outs::nothing())
    }
}
