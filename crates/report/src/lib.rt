// What is printed, made of proved functions on bytes.
#![tactic(auto)]

ghost use Rattle.std.specs.Prelude.{◌≡◌, ◌+◌, ◌≤◌, ◌++◌, length};
ghost use Rattle.report.specs.Text.{decimal, decimal_signed, empty_page, appended, page_of};
ghost use Rattle.request.specs.View.{view, view_demand};
ghost use Rattle.report.specs.Lines.{named, row_line};
ghost use Rattle.report.specs.Rows.{demand_row, rows};
ghost use Rattle.report.specs.Report.{refusal_text, word_of, answer_text, plan_text, request_text, report_text};
ghost use Rattle.search.specs.Reply.{outcome_end};

use grid::{Band, to_frequency};
use reading::read_request;
use refusal::Refusal;
use request::{Demand, Request, width_of};
use search::{Answer, Outcome, search};

// A page of text: the first `len` bytes count, the others are 0.
// Kept as it is: `page_of`, of which the promise of `report_on` speaks, has the 1,024 bytes and the length.
#[derive(Drop)]
pub struct Page {
    pub bytes: [u8; 1024],
    pub len: usize,
}

impl Page {
    pub const ROOM: usize = 1024;

    // A page with nothing on it.
    fn empty() -> Page
        ensures value { result ≡ empty_page }
        ensures len_value { result.len ≡ 0 }
    {
        Page {
            bytes: [0u8; 1024],
            len: 0,
        }
    }

    // Puts some bytes on the page, behind what stands there.
    fn put_text(&mut self, text: &[u8])
        requires { self.old.len + length text.now ≤ 1024 }
        ensures value { self.new ≡ appended self.old text.now }
        ensures len_value { self.new.len ≡ self.old.len + length text.now }
    {
        let end = self.len + text.len();
        self.bytes[self.len..end].copy_from_slice(text);
        self.len = end;
    }

    // Puts a number, in decimal. None has more than 20 digits.
    // Kept as it is: `write!` answers a result, which each caller would have to drop or hand on, though no page here is ever full.
    fn put_number(&mut self, n: u64)
        requires { self.old.len + length (decimal n) ≤ 1024 }
        ensures value { self.new ≡ appended self.old (decimal n) }
        ensures len_bound { self.new.len ≤ self.old.len + 20 }
    {
        if n >= 10 {
            self.put_number(n / 10);
        }
        self.put_text(&[b'0' + (n % 10) as u8]);
    }

    // Puts a signed number, in decimal. None has more than 20 signs.
    fn put_signed(&mut self, n: i64)
        requires { self.old.len + 20 ≤ 1024 }
        ensures value { self.new ≡ appended self.old (decimal_signed n) }
        ensures len_bound { self.new.len ≤ self.old.len + 20 }
    {
        if n < 0 {
            self.put_text(b"-");
        }
        self.put_number(n.unsigned_abs());
    }

    // Puts a name and its number.
    fn put_named(&mut self, name: &[u8], n: u64)
        requires { self.old.len + length name.now + 20 ≤ 1024 }
        ensures value { self.new ≡ appended self.old (named name.now n) }
        ensures len_bound { self.new.len ≤ self.old.len + length name.now + 20 }
    {
        self.put_text(name);
        self.put_number(n);
    }

    // Puts a demand's row.
    // Kept as it is: the promise speaks of `row_line`, a definition, which takes these five numbers.
    fn put_row_line(&mut self, ident: u16, start: u16, end: u32, n: i64, mhz: i64)
        requires { self.old.len + 105 ≤ 1024 }
        ensures { self.new ≡ appended self.old (row_line ident start end n mhz) }
    {
        self.put_number(u64::from(ident));
        self.put_named(b" ", u64::from(start));
        self.put_named(b" ", u64::from(end));
        self.put_text(b" ");
        self.put_signed(n);
        self.put_text(b" ");
        self.put_signed(mhz);
        self.put_text(b"\n");
    }

    // Puts the row of a demand that starts here. A start that the band does not have gives no row.
    fn put_row(&mut self, band: Band, demand: Demand, start: u16)
        requires { self.old.len + 105 ≤ 1024 }
        ensures value { self.new ≡ appended self.old (demand_row band (view_demand demand) start) }
        ensures len_bound { self.new.len ≤ self.old.len + 39 }
    {
        let width = width_of(demand);
        let end = u32::from(start) + u32::from(width);
        if let Ok(centre) = to_frequency(band, start, width) {
            self.put_row_line(demand.ident, start, end, i64::from(centre.n), centre.mhz);
        }
    }

    // Puts a row for each demand, in listing order.
    // Kept as it is: a type for the request and its starts would need its invariant proved in `request_page` as the count's bound is there,
    // and take in three private functions no more than the one clause.
    fn put_rows(&mut self, request: Request, starts: [u16; 20])
        requires len_bound { self.old.len + 846 ≤ 1024 }
        requires demand_count_bound { request.demand_count ≤ 20 }
        ensures value { self.new ≡ appended self.old (rows request.band (view request).demands starts) }
        ensures len_bound_2 { self.new.len ≤ 1024 }
    {
        // Kept as it is: a zip would take the two arrays cut to the count, where the index is that of both.
        for k in 0..request.demand_count {
            self.put_row(request.band, request.demands[k], starts[k]);
        }
    }

    // Puts the rows of a plan, where an outcome has one.
    fn put_plan(&mut self, outcome: Outcome, request: Request, starts: [u16; 20])
        requires len_bound { self.old.len + 846 ≤ 1024 }
        requires demand_count_bound { request.demand_count ≤ 20 }
        ensures value { self.new ≡ appended self.old (plan_text outcome (rows request.band (view request).demands starts)) }
        ensures len_bound_2 { self.new.len ≤ 1024 }
    {
        match outcome {
            Outcome::Finished(_) | Outcome::Unfinished(_) => self.put_rows(request, starts),
            Outcome::NothingFits | Outcome::UnfinishedEmpty => {}
        }
    }
}

// The page of a refusal.
fn refused_page(why: Refusal) -> Page
    ensures value { result ≡ page_of (refusal_text why) }
    ensures len_bound { result.len ≤ 1024 }
{
    let mut page = Page::empty();
    page.put_text(b"refused");
    page.put_named(b" ", u64::from(why.number()));
    page.put_named(b" ", why.place() as u64);
    page.put_text(b"\n");
    page
}

// The first word of an outcome, and its end. No word has more than 10 letters.
#[tactic(auto, unfolding(crate::specs::Report::word_of, crate::specs::Lines::finished_word, crate::specs::Lines::nofit_word, crate::specs::Lines::unfinished_word, search::specs::Reply::outcome_end))]
fn word_and_end(outcome: Outcome) -> (&'static [u8], u16)
    ensures word { result.0.now ≡ word_of outcome }
    ensures end { result.1 ≡ outcome_end outcome }
    ensures len_bound { length result.0.now ≤ 10 }
{
    match outcome {
        Outcome::Finished(end) => (b"finished", end),
        Outcome::NothingFits => (b"nofit", 0),
        Outcome::Unfinished(end) => (b"unfinished", end),
        Outcome::UnfinishedEmpty => (b"unfinished", 0),
    }
}

// The page of an answer's first line.
fn answer_page(answer: Answer) -> Page
    ensures value { result ≡ page_of (answer_text answer) }
    ensures len_bound { result.len ≤ 146 }
{
    let (word, end) = word_and_end(answer.outcome);
    let mut page = Page::empty();
    page.put_text(word);
    page.put_named(b" end ", u64::from(end));
    page.put_named(b" bound ", u64::from(answer.bound));
    page.put_named(b" steps ", u64::from(answer.steps));
    page.put_named(b" reached ", answer.reached);
    page.put_named(b" ruled ", answer.ruled);
    page.put_text(b"\n");
    page
}

// The page of an answer: its line, and its plan's rows where it has a plan.
fn answered_page(answer: Answer, request: Request, starts: [u16; 20]) -> Page
    requires { request.demand_count ≤ 20 }
    ensures value { result ≡ page_of (answer_text answer ++ plan_text answer.outcome (rows request.band (view request).demands starts)) }
    ensures len_bound { result.len ≤ 1024 }
{
    let mut page = answer_page(answer);
    page.put_plan(answer.outcome, request, starts);
    page
}

// The page of a request: it is searched, and the answer is told.
fn request_page(request: Request) -> Page
    ensures value { result ≡ page_of (request_text (view request)) }
    ensures len_bound { result.len ≤ 1024 }
{
    let mut starts = [0u16; 20];
    let mut order = [0u16; 20];
    let mut blockers = [0u16; 20];
    let reply = search(request, 1_000_000, &mut starts, &mut order, &mut blockers);
    match reply {
        Ok(answer) => answered_page(answer, request, starts),
        Err(why) => refused_page(why),
    }
}

// What is printed for a request file: the answer to its search with a limit of 1,000,000 steps, or the refusal.
pub fn report_on(file: &[u8]) -> Page
    ensures value { result ≡ page_of (report_text file.now) }
    ensures len_bound { result.len ≤ 1024 }
{
    match read_request(file) {
        Ok(request) => request_page(request),
        Err(why) => refused_page(why),
    }
}
