// The kinds of frames by their words, and the fields of each in the order of a line.
ghost use Rattle.std.specs.Prelude.{◌≡◌};
ghost use Rattle.frame_words.specs.Table.{kinds, kind_word, fields_in, fields_of, has_data};

#[derive(Clone, Copy, PartialEq, Eq, Debug)]
pub enum Kind {
    Sync,
    Read,
    Write,
    PlainRead,
    PlainWrite,
    Response,
    PlainSyncResponse,
    PlainResponse,
    Tid,
    Sid,
    Sid4,
    Ack,
    Invariants,
}

// A field: its name with the '=', and how many hex digits it has.
pub type Field = (&'static [u8], u8);

// All kinds, in the order of the grammar.
#[tactic(auto, unfolding(crate::specs::Table::kinds))]
pub fn kinds() -> &'static [Kind]
    ensures { result.now ≡ kinds }
{
    &[
        Kind::Sync,
        Kind::Read,
        Kind::Write,
        Kind::PlainRead,
        Kind::PlainWrite,
        Kind::Response,
        Kind::PlainSyncResponse,
        Kind::PlainResponse,
        Kind::Tid,
        Kind::Sid,
        Kind::Sid4,
        Kind::Ack,
        Kind::Invariants,
    ]
}

impl Kind {
    pub fn word(self) -> &'static [u8]
        ensures { result.now ≡ kind_word self }
    {
        match self {
            Kind::Sync => b"sync",
            Kind::Read => b"read",
            Kind::Write => b"write",
            Kind::PlainRead => b"plain-read",
            Kind::PlainWrite => b"plain-write",
            Kind::Response => b"response",
            Kind::PlainSyncResponse => b"plain-sync-response",
            Kind::PlainResponse => b"plain-response",
            Kind::Tid => b"tid",
            Kind::Sid => b"sid",
            Kind::Sid4 => b"sid4",
            Kind::Ack => b"ack",
            Kind::Invariants => b"invariants",
        }
    }

    // The fields except the data.
    pub fn fields(self) -> &'static [Field]
        ensures { fields_in result.now ≡ fields_of self }
    {
        match self {
            Kind::Sync => &[(b"src=", 6), (b"cyc=", 2)],
            Kind::Read => &[
                (b"to=", 2),
                (b"dest=", 6),
                (b"src=", 6),
                (b"cyc=", 2),
                (b"seq=", 2),
                (b"len=", 2),
                (b"at=", 2),
            ],
            Kind::Write => &[
                (b"to=", 2),
                (b"dest=", 6),
                (b"src=", 6),
                (b"cyc=", 2),
                (b"seq=", 2),
                (b"at=", 2),
            ],
            Kind::PlainRead => &[(b"to=", 2), (b"src=", 2), (b"len=", 2), (b"at=", 2)],
            Kind::PlainWrite => &[(b"to=", 2), (b"src=", 2), (b"at=", 2)],
            Kind::Response => &[
                (b"to=", 2),
                (b"dest=", 6),
                (b"src=", 6),
                (b"cyc=", 2),
                (b"seq=", 2),
                (b"com=", 2),
                (b"at=", 2),
                (b"stat=", 2),
            ],
            Kind::PlainSyncResponse => &[(b"to=", 2), (b"src=", 2), (b"at=", 2), (b"stat=", 2)],
            Kind::PlainResponse => &[(b"to=", 2), (b"src=", 2), (b"com=", 2), (b"at=", 2)],
            Kind::Tid => &[(b"to=", 2), (b"src=", 2), (b"iid=", 16), (b"tid=", 2)],
            Kind::Sid => &[
                (b"to=", 2),
                (b"src=", 6),
                (b"sec=", 8),
                (b"mac=", 16),
                (b"sid=", 6),
            ],
            Kind::Sid4 => &[
                (b"to=", 2),
                (b"src=", 6),
                (b"sec=", 8),
                (b"mac=", 16),
                (b"sid=", 6),
                (b"sid2=", 6),
                (b"src2=", 6),
            ],
            Kind::Ack => &[
                (b"to=", 2),
                (b"src=", 6),
                (b"dst=", 6),
                (b"sec=", 8),
                (b"mac=", 16),
            ],
            Kind::Invariants => &[
                (b"to=", 2),
                (b"dest=", 6),
                (b"src=", 6),
                (b"cyc=", 2),
                (b"seq=", 2),
                (b"config=", 4),
                (b"logic=", 4),
            ],
        }
    }

    // Whether the kind has data=, which is always the last field.
    pub fn has_data(self) -> bool
        ensures { result ≡ has_data self }
    {
        matches!(
            self,
            Kind::Write
                | Kind::PlainWrite
                | Kind::Response
                | Kind::PlainSyncResponse
                | Kind::PlainResponse
        )
    }
}
