// The search for the end of a record.
ghost use Rattle.std.specs.Prelude.{◌<◌, length};
ghost use Rattle.records.specs.Scanned.{Cuts, Steps};

// What was read: text, text and a CR that may begin a CRLF, or a record with its CRLF.
// `strays` says whether a stray byte stood in the text: a flag in each state, since the match below looks at the state
// and the next byte together.
#[derive(Clone, Copy, PartialEq, Eq, Debug)]
pub enum Scan {
    Text { strays: bool },
    AfterCr { strays: bool },
    Ended { strays: bool },
}

// A text, cut behind its first record: the record, what is left behind its CRLF, and whether the record has a stray
// byte, for it to hold.
#[derive(Clone, Copy, PartialEq, Eq, Debug)]
pub struct Cut<'a> {
    pub text: &'a [u8],
    pub rest: &'a [u8],
    pub strays: bool,
}

// The state after one byte more. Only the byte after a CR shows whether the CR was bare.
fn step(scan: Scan, byte: u8) -> Scan
    ensures { Steps scan byte result }
{
    match (scan, byte) {
        (Scan::Text { strays }, b'\r') => Scan::AfterCr { strays },
        (Scan::Text { .. }, b'\n') => Scan::Text { strays: true },
        (Scan::Text { .. }, b'"') => Scan::Text { strays: true },
        (Scan::Text { strays }, _) => Scan::Text { strays },
        (Scan::AfterCr { strays }, b'\n') => Scan::Ended { strays },
        (Scan::AfterCr { .. }, b'\r') => Scan::AfterCr { strays: true },
        (Scan::AfterCr { .. }, _) => Scan::Text { strays: true },
        (Scan::Ended { strays }, _) => Scan::Ended { strays },
    }
}

// The first record of a text that is not empty. It may lack its CRLF, and then a CR at its end is bare.
pub fn first_cut(left: &[u8]) -> Cut<'_>
    requires { 0 < length left.now }
    ensures { Cuts left.now result.text.now result.rest.now result.strays }
{
    let mut scan = Scan::Text { strays: false };
    // With its place, which is what is looked for.
    for (at, byte) in left.iter().enumerate() {
        scan = step(scan, *byte);
        if let Scan::Ended { strays } = scan {
            return Cut {
                text: &left[..at - 1],
                rest: &left[at + 1..],
                strays,
            };
        }
    }
    let strays = match scan {
        Scan::AfterCr { .. } => true,
        Scan::Text { strays } | Scan::Ended { strays } => strays,
    };
    Cut {
        text: left,
        rest: &[],
        strays,
    }
}
