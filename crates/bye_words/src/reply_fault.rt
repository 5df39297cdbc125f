ghost use Rattle.std.specs.Prelude.{◌≡◌};
ghost use Rattle.bye_words.specs.Lines.{reply_text};

/// Why a reply is no message.
#[derive(Debug, Clone, Copy)]
pub enum ReplyFault {
    Malformed,
    HeadTooLong,
    BodyTooLong,
    BadLength,
    Cut,
}

impl ReplyFault {
    /// What a line says of it.
    pub fn text(self) -> &'static str
        ensures { result.now ≡ reply_text self }
    {
        match self {
            ReplyFault::Malformed => "malformed",
            ReplyFault::HeadTooLong => "head too long",
            ReplyFault::BodyTooLong => "body too long",
            ReplyFault::BadLength => "bad length",
            ReplyFault::Cut => "cut",
        }
    }
}
