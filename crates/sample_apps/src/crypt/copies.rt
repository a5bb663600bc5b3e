//! Copies of what Crypt keeps.

ghost use Rattle.std.specs.Prelude.{◌≡◌, IfOk};

use crate::crypt::commands::Plan;
use crate::crypt::{Class, Waiting};
use std::alloc::Global;
use tee_base::NoMemory;

impl Plan {
    fn copy(&self, alloc: Global) -> Result<Plan, NoMemory>
        ensures { IfOk result (λ plan. plan ≡ self.now) }
    {
        Ok(Plan {
            alg: self.alg,
            mode: self.mode,
            key: self.key.copy(alloc)?,
            iv: self.iv.copy(alloc)?,
        })
    }
}

impl Class {
    pub fn copy(&self, alloc: Global) -> Result<Class, NoMemory>
        ensures { IfOk result (λ class. class ≡ self.now) }
    {
        match self {
            Class::Cipher { iv } => Ok(Class::Cipher {
                iv: iv.copy(alloc)?,
            }),
            Class::Ae { nonce } => Ok(Class::Ae {
                nonce: nonce.copy(alloc)?,
            }),
            Class::Mac => Ok(Class::Mac),
            Class::Digest => Ok(Class::Digest),
        }
    }
}

impl Waiting {
    pub fn copy(&self, alloc: Global) -> Result<Waiting, NoMemory>
        ensures { IfOk result (λ waiting. waiting ≡ self.now) }
    {
        match self {
            Waiting::Nothing => Ok(Waiting::Nothing),
            Waiting::Freeing { plan } => Ok(Waiting::Freeing {
                plan: plan.copy(alloc)?,
            }),
            Waiting::Allocating { plan } => Ok(Waiting::Allocating {
                plan: plan.copy(alloc)?,
            }),
            Waiting::MakingKey { key, class } => Ok(Waiting::MakingKey {
                key: key.copy(alloc)?,
                class: class.copy(alloc)?,
            }),
            Waiting::FillingKey { object, class } => Ok(Waiting::FillingKey {
                object: *object,
                class: class.copy(alloc)?,
            }),
            Waiting::SettingKey { object, class } => Ok(Waiting::SettingKey {
                object: *object,
                class: class.copy(alloc)?,
            }),
            Waiting::ClosingKey { class } => Ok(Waiting::ClosingKey {
                class: class.copy(alloc)?,
            }),
            Waiting::Beginning { class } => Ok(Waiting::Beginning {
                class: class.copy(alloc)?,
            }),
            Waiting::Enciphering => Ok(Waiting::Enciphering),
            Waiting::Absorbing => Ok(Waiting::Absorbing),
            Waiting::Finishing => Ok(Waiting::Finishing),
            Waiting::Sealing { size } => Ok(Waiting::Sealing { size: *size }),
            Waiting::Opening => Ok(Waiting::Opening),
            Waiting::Reopening { content } => Ok(Waiting::Reopening {
                content: content.copy(alloc)?,
            }),
            Waiting::Renewing { content } => Ok(Waiting::Renewing {
                content: content.copy(alloc)?,
            }),
            Waiting::Comparing => Ok(Waiting::Comparing),
            Waiting::Judging { code } => Ok(Waiting::Judging { code: *code }),
        }
    }
}
