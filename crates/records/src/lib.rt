// The records of a plan book, read (document 01, "Plan book"; document 02, C-16).
#![tactic(auto)]

ghost use Rattle.std.specs.Prelude.{◌≡◌, true, cond, ◌≤◌, length};
ghost use Rattle.job.specs.Fields.{word2};
ghost use Rattle.plan.specs.Records.{route_size};
ghost use Rattle.records.specs.Records.{head_body, route_body, whole, decoded, record_of};
ghost use Rattle.records.specs.declared.Record.TheVariants as rec;

use plan::Head;

// What stands at a place of a plan book: a whole record, or what is none of the six kinds. A grouped route is of the newer kind; an older one has the centre
// 0. The coordinates of a corner are words in two's complement.
#[derive(Clone, Copy)]
pub enum Record {
    Head(Head),
    Route {
        grouped: bool,
        number: u32,
        meets: u32,
        corners: u32,
        centre: u32,
    },
    Corner {
        x: u32,
        y: u32,
    },
    End(u32),
    Other,
}

// How many bytes a route record has.
pub fn route_size(grouped: bool) -> usize
    ensures { (result ≡ route_size grouped) × (7 ≤ result) × (result ≤ 9) }
{
    if grouped {
        return 9;
    }
    7
}

// The head whose body the bytes begin with.
fn head_in(body: &[u8], grouped: bool) -> Record
    ensures { result ≡ whole 18 body.now (rec.Head (head_body grouped body.now)) }
{
    if body.len() < 18 {
        return Record::Other;
    }
    let head = Head {
        grouped,
        job: job::le32(body, 0),
        runs: job::le16(body, 4),
        trench: job::le32(body, 6),
        saved: job::le32(body, 10),
        pits: job::le16(body, 14),
        last: job::le16(body, 16),
    };
    Record::Head(head)
}

// The group's centre in the body of a route; an older one tells none.
fn centre_in(body: &[u8], grouped: bool) -> u32
    requires { grouped ≡ true → 8 ≤ length body.now }
    ensures { result ≡ cond grouped (word2 body.now 6) 0 }
{
    if grouped {
        return job::le16(body, 6);
    }
    0
}

// The route whose body the bytes begin with.
fn route_in(body: &[u8], grouped: bool) -> Record
    ensures { result ≡ route_body grouped body.now }
{
    if (body.len() < 6) | (grouped & (body.len() < 8)) {
        return Record::Other;
    }
    Record::Route {
        grouped,
        number: job::le16(body, 0),
        meets: job::le16(body, 2),
        corners: job::le16(body, 4),
        centre: centre_in(body, grouped),
    }
}

// The record of this kind whose body the bytes begin with. Corners come first, since most records are corners. Heads of both kinds are one case, and so are routes: with a
// case for each, this would become a call for every corner.
fn decode(kind: u8, body: &[u8]) -> Record
    ensures { result ≡ decoded kind body.now }
{
    if kind == 0x43 {
        if body.len() < 8 {
            return Record::Other;
        }
        return Record::Corner {
            x: job::le32(body, 0),
            y: job::le32(body, 4),
        };
    }
    if (kind == 0x51) | (kind == 0x50) {
        return head_in(body, kind == 0x51);
    }
    if (kind == 0x4F) | (kind == 0x4E) {
        return route_in(body, kind == 0x4F);
    }
    if kind == 0x5A {
        if body.len() < 2 {
            return Record::Other;
        }
        return Record::End(job::le16(body, 0));
    }
    Record::Other
}

// The record that the bytes begin with.
pub fn first_record(book: &[u8]) -> Record
    ensures { result ≡ record_of book.now }
{
    let [kind, body @ ..] = book else {
        return Record::Other;
    };
    decode(*kind, body)
}
