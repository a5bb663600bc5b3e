//! Commands 2 to 5 of Crypt: messages that go through the operation.

ghost use Rattle.std.specs.Prelude.{◌≡◌, IfOk};
ghost use Rattle.app_kit.specs.Reactions.{ask_for};
ghost use Rattle.sample_apps.specs.CryptMessages as rows;

use crate::crypt::{Class, Crypt, Waiting};
use app_api::{Answer, Ask, Out, Outs};
use app_kit::{at_p1, at_p2};
use std::alloc::Global;
use tee_base::{Bytes, Code, NoMemory};

/// How many bytes a tag has.
const TAG_LEN: u32 = 16;

/// So many bytes with a tag, as a size of 32 bits says it.
fn size_with_tag(bytes: &Bytes) -> u32
    ensures { result ≡ rows.size_with_tag bytes.now }
{
    match u32::try_from(bytes.len()) {
        Ok(count) => count.saturating_add(TAG_LEN),
        Err(_) => u32::MAX,
    }
}

/// The text with the tag after it, where an answer has both, and else nothing.
pub fn joined_of(alloc: Global, answer: &Answer) -> Result<Bytes, NoMemory>
    ensures { IfOk result (λ joined. joined ≡ rows.joined_of answer.now) }
{
    match answer {
        Answer::Sealed { content, tag } => {
            let mut bytes = Vec::new(alloc);
            bytes.extend_from_slice(content.as_slice())?;
            bytes.extend_from_slice(tag.as_slice())?;
            Ok(Bytes::from_vec(bytes))
        }
        _ => Ok(Bytes::empty(alloc)),
    }
}

impl Crypt {
    /// The command returns these bytes.
    fn deliver(&mut self, bytes: Bytes) -> Ask
        ensures { ask_for self.new result ≡ rows.delivery_of self.old bytes }
    {
        self.succeed(at_p1(Out::Mem(bytes)))
    }

    /// The output needs so many bytes.
    fn fall_short(&mut self, size: u32) -> Ask
        ensures { ask_for self.new result ≡ rows.shortage_of self.old size }
    {
        self.return_with(Code::SHORT_BUFFER, at_p1(Out::Size(size)))
    }

    #[tactic(auto, unfolding(crate::specs::CryptMessages::update))]
    pub fn update(&mut self, bytes: Bytes, room: u32) -> Ask
        ensures { ask_for self.new result ≡ rows.update self.old self.old.class bytes room }
    {
        let op = self.op;
        match &self.class {
            None => {
                drop(bytes);
                self.fail(Code::BAD_STATE)
            }
            Some(Class::Cipher { .. }) => self.wait_for(
                Waiting::Enciphering,
                Ask::CipherUpdate { op, bytes, room },
            ),
            Some(Class::Ae { .. }) => {
                self.wait_for(Waiting::Enciphering, Ask::AeUpdate { op, bytes, room })
            }
            Some(Class::Mac) => self.wait_for(Waiting::Absorbing, Ask::MacUpdate { op, bytes }),
            Some(Class::Digest) => {
                self.wait_for(Waiting::Absorbing, Ask::DigestUpdate { op, bytes })
            }
        }
    }

    #[tactic(auto, unfolding(crate::specs::CryptMessages::after_cipher_update))]
    pub fn after_cipher_update(&mut self, answer: Answer) -> Ask
        ensures { ask_for self.new result ≡ rows.after_cipher_update self.old answer }
    {
        match answer {
            Answer::Content(bytes) => self.deliver(bytes),
            Answer::Short(size) => self.fall_short(size),
            other => self.refuse(other),
        }
    }

    #[tactic(auto, unfolding(crate::specs::CryptMessages::after_absorption))]
    pub fn after_absorption(&mut self, alloc: Global, answer: Answer) -> Ask
        ensures { ask_for self.new result ≡ rows.after_absorption self.old answer }
    {
        match answer {
            Answer::Done => self.deliver(Bytes::empty(alloc)),
            other => self.refuse(other),
        }
    }

    #[tactic(auto, unfolding(crate::specs::CryptMessages::finish))]
    pub fn finish(&mut self, bytes: Bytes, room: u32) -> Ask
        ensures { ask_for self.new result ≡ rows.finish self.old self.old.class bytes room }
    {
        let op = self.op;
        let ask = match &self.class {
            None => {
                drop(bytes);
                return self.fail(Code::BAD_STATE);
            }
            Some(Class::Cipher { .. }) => Ask::CipherFinal { op, bytes, room },
            Some(Class::Ae { .. }) => {
                let size = size_with_tag(&bytes);
                let ask = Ask::AeSeal {
                    op,
                    bytes,
                    room: room.saturating_sub(TAG_LEN),
                    tag_room: room.min(TAG_LEN),
                };
                return self.wait_for(Waiting::Sealing { size }, ask);
            }
            Some(Class::Mac) => Ask::MacFinal { op, bytes, room },
            Some(Class::Digest) => Ask::DigestFinal { op, bytes, room },
        };
        self.wait_for(Waiting::Finishing, ask)
    }

    /// The beginning is the ask that begins the next message.
    #[tactic(auto, unfolding(crate::specs::CryptMessages::after_final))]
    pub fn after_final(&mut self, beginning: Option<Ask>, answer: Answer) -> Ask
        ensures { ask_for self.new result ≡ rows.after_final self.old beginning answer }
    {
        match answer {
            Answer::Content(content) => match beginning {
                Some(ask) => self.wait_for(Waiting::Renewing { content }, ask),
                None => self.deliver(content),
            },
            Answer::Short(size) => {
                drop(beginning);
                self.fall_short(size)
            }
            other => {
                drop(beginning);
                self.refuse(other)
            }
        }
    }

    /// The beginning is the ask that begins the next message, and `joined` the text and the tag of the answer.
    #[tactic(auto, unfolding(crate::specs::CryptMessages::after_seal))]
    pub fn after_seal(
        &mut self,
        beginning: Option<Ask>,
        size: u32,
        joined: Bytes,
        answer: Answer,
    ) -> Ask
        requires { joined ≡ rows.joined_of answer }
        ensures { ask_for self.new result ≡ rows.after_seal self.old beginning size answer }
    {
        match answer {
            Answer::Sealed { content, tag } => {
                drop(content);
                drop(tag);
                match beginning {
                    Some(ask) => self.wait_for(Waiting::Renewing { content: joined }, ask),
                    None => self.deliver(joined),
                }
            }
            Answer::Short(_) => {
                drop(joined);
                drop(beginning);
                self.fall_short(size)
            }
            other => {
                drop(joined);
                drop(beginning);
                self.refuse(other)
            }
        }
    }

    #[tactic(auto, unfolding(crate::specs::CryptMessages::after_next_beginning))]
    pub fn after_next_beginning(&mut self, content: Bytes, answer: Answer) -> Ask
        ensures { ask_for self.new result ≡ rows.after_next_beginning self.old content answer }
    {
        match answer {
            Answer::Done => self.deliver(content),
            other => {
                drop(content);
                self.refuse(other)
            }
        }
    }

    #[tactic(auto, unfolding(crate::specs::CryptMessages::compare))]
    pub fn compare(&mut self, bytes: Bytes, mac: Bytes) -> Ask
        ensures { ask_for self.new result ≡ rows.compare self.old self.old.class bytes mac }
    {
        let op = self.op;
        match &self.class {
            Some(Class::Mac) => {
                self.wait_for(Waiting::Comparing, Ask::MacCompare { op, bytes, mac })
            }
            _ => {
                drop(bytes);
                drop(mac);
                self.fail(Code::BAD_STATE)
            }
        }
    }

    /// The next message begins, before the code is returned.
    fn begin_before(&mut self, code: Code) -> Ask
        ensures { ask_for self.new result ≡ rows.after_verdict self.old code }
    {
        let op = self.op;
        self.wait_for(Waiting::Judging { code }, Ask::MacInit { op })
    }

    #[tactic(auto, unfolding(crate::specs::CryptMessages::after_mac_compare))]
    pub fn after_mac_compare(&mut self, answer: Answer) -> Ask
        ensures { ask_for self.new result ≡ rows.after_mac_compare self.old answer }
    {
        match answer {
            Answer::Done => self.begin_before(Code::SUCCESS),
            Answer::Refused(code) => {
                if code.0 == Code::MAC_INVALID.0 {
                    self.begin_before(code)
                } else {
                    self.fail(code)
                }
            }
            other => {
                drop(other);
                self.fail(Code::GENERIC)
            }
        }
    }

    #[tactic(auto, unfolding(crate::specs::CryptMessages::after_compared_beginning))]
    pub fn after_compared_beginning(&mut self, code: Code, answer: Answer) -> Ask
        ensures { ask_for self.new result ≡ rows.after_compared_beginning self.old code answer }
    {
        match answer {
            Answer::Done => self.return_with(code, Outs::nothing()),
            other => self.refuse(other),
        }
    }

    #[tactic(auto, unfolding(crate::specs::CryptMessages::open_last))]
    pub fn open_last(&mut self, bytes: Bytes, tag: Bytes, room: u32) -> Ask
        ensures { ask_for self.new result
            ≡ rows.open_last self.old self.old.class bytes tag room }
    {
        let op = self.op;
        match &self.class {
            Some(Class::Ae { .. }) => self.wait_for(
                Waiting::Opening,
                Ask::AeOpen {
                    op,
                    bytes,
                    room,
                    tag,
                },
            ),
            _ => {
                drop(bytes);
                drop(tag);
                self.fail(Code::BAD_STATE)
            }
        }
    }

    /// The command returns these bytes.
    fn deliver_opened(&mut self, bytes: Bytes) -> Ask
        ensures { ask_for self.new result ≡ rows.opened_delivery_of self.old bytes }
    {
        self.succeed(at_p2(Out::Mem(bytes)))
    }

    /// The next message begins after a tag that was another.
    fn refuse_tag(&mut self, beginning: Option<Ask>, code: Code) -> Ask
        ensures { ask_for self.new result ≡ rows.next_refused self.old beginning code }
    {
        match beginning {
            Some(ask) => self.wait_for(Waiting::Judging { code }, ask),
            None => self.fail(code),
        }
    }

    /// The beginning is the ask that begins the next message.
    #[tactic(auto, unfolding(crate::specs::CryptMessages::after_open))]
    pub fn after_open(&mut self, beginning: Option<Ask>, answer: Answer) -> Ask
        ensures { ask_for self.new result ≡ rows.after_open self.old beginning answer }
    {
        match answer {
            Answer::Content(content) => match beginning {
                Some(ask) => self.wait_for(Waiting::Reopening { content }, ask),
                None => self.deliver_opened(content),
            },
            Answer::Short(size) => {
                drop(beginning);
                self.return_with(Code::SHORT_BUFFER, at_p2(Out::Size(size)))
            }
            Answer::Refused(code) => {
                if code.0 == Code::MAC_INVALID.0 {
                    self.refuse_tag(beginning, code)
                } else {
                    drop(beginning);
                    self.fail(code)
                }
            }
            other => {
                drop(beginning);
                drop(other);
                self.fail(Code::GENERIC)
            }
        }
    }

    #[tactic(auto, unfolding(crate::specs::CryptMessages::after_opened_beginning))]
    pub fn after_opened_beginning(&mut self, content: Bytes, answer: Answer) -> Ask
        ensures { ask_for self.new result ≡ rows.after_opened_beginning self.old content answer }
    {
        match answer {
            Answer::Done => self.deliver_opened(content),
            other => {
                drop(content);
                self.refuse(other)
            }
        }
    }
}
