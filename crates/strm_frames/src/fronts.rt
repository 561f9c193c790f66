//! What stands at the front of bytes.

ghost use Rattle.std.specs.Prelude.{◌≡◌};
ghost use Rattle.strm_frames.specs.Fronts.{HasKind, front_seen, front_of};

// The next frame and what follows it, or why there is none.
#[derive(Clone, Copy)]
pub(crate) enum Front<'a> {
    // Bytes of a lane.
    Data {
        lane: u8,
        bytes: &'a [u8],
        more: &'a [u8],
    },
    // The end of a lane.
    End {
        lane: u8,
        more: &'a [u8],
    },
    // Less than a frame.
    Part,
    // Neither 00 nor 01.
    Other,
    // A data frame of no bytes.
    Empty,
}

// The front of these bytes.
#[inline(always)]
pub(crate) fn next_front(bytes: &[u8]) -> Front<'_>
    ensures { front_seen result ≡ front_of bytes.now }
{
    if bytes.is_empty() {
        return Front::Part;
    }
    let kind = bytes[0];
    if kind == 0 {
        data_front(bytes)
    } else if kind == 1 {
        end_front(bytes)
    } else {
        Front::Other
    }
}

// The front of bytes that begin with 00.
#[inline(always)]
fn data_front(bytes: &[u8]) -> Front<'_>
    requires { HasKind 0 bytes.now }
    ensures { front_seen result ≡ front_of bytes.now }
{
    if bytes.len() < 3 {
        return Front::Part;
    }
    let (head, rest) = bytes.split_at(3);
    let len = head[2] as usize;
    if len == 0 {
        return Front::Empty;
    }
    if rest.len() < len {
        return Front::Part;
    }
    let (bytes, more) = rest.split_at(len);
    Front::Data {
        lane: head[1],
        bytes,
        more,
    }
}

// The front of bytes that begin with 01.
#[inline(always)]
fn end_front(bytes: &[u8]) -> Front<'_>
    requires { HasKind 1 bytes.now }
    ensures { front_seen result ≡ front_of bytes.now }
{
    if bytes.len() < 2 {
        return Front::Part;
    }
    let (head, more) = bytes.split_at(2);
    Front::End {
        lane: head[1],
        more,
    }
}
