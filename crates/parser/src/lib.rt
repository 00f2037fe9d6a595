// The bytes of a model, judged number by number.
#![tactic(auto)]

ghost use Rattle.std.specs.Prelude.{◌≡◌, ◌-◌, ◌<◌, ◌≤◌, ◌^◌, IfOk};
ghost use Rattle.limits.specs.Limits.{max_clocks, max_ceiling, max_locations, max_edges};
ghost use Rattle.parser.specs.Parse.{blank, numbered, parse_model};

use limits::refusal::Refusal;
use limits::{MAX_CEILING, MAX_CLOCKS, MAX_EDGES, MAX_LOCATIONS, NEWEST_MARK};
use model::{GUARD_SLOTS, INVARIANT_SLOTS, Model, Plan, STRIDE};
use number::Number;
use stay_fields::resolve_model;

// Limits as bytes, the width of a field.
const CLOCKS: u8 = MAX_CLOCKS as u8;

const CEILING: u8 = MAX_CEILING as u8;

const LOCATIONS: u8 = MAX_LOCATIONS as u8;

const EDGES: u8 = MAX_EDGES as u8;

const MARKS: u8 = NEWEST_MARK as u8;

// The five numbers, with nothing read of the arrays.
fn blank_model(clocks: u8, ceiling: u8, locations: u8, edges: u8, start: u8) -> Model
    ensures { result ≡ blank clocks ceiling locations edges start }
{
    Model {
        clocks,
        ceiling,
        locations,
        edges,
        start,
        kind: [0; MAX_LOCATIONS],
        invariant: [0; INVARIANT_SLOTS],
        source: [0; MAX_EDGES],
        target: [0; MAX_EDGES],
        reset: [0; MAX_EDGES],
        lower: [0; GUARD_SLOTS],
        upper: [0; GUARD_SLOTS],
    }
}

// The largest reset mask of n clocks.
fn largest_mask(n: u8) -> u8
    requires { (1 ≤ n) × (n ≤ max_clocks) }
    ensures { result ≡ 2 ^ n - 1 }
{
    (1 << n) - 1
}

// The bytes, and the offset of the next number.
#[derive(Clone, Copy)]
struct Cursor<'a> {
    bytes: &'a [u8],
    at: usize,
}

impl<'a> Cursor<'a> {
    ghost use Rattle.limits.specs.Refusal.{code_of};
    ghost use Rattle.model.specs.Each.{each};
    ghost use Rattle.parser.specs.Parse.{field_at, going, kind_at, invariant_at, parse_location, ends_at, guard_at, parse_edge, finish, parse_body, parse_counts};
    ghost use Rattle.parser.specs.Cursor.{read_field, with_mark, Counted, SameHeader, Ends};
    ghost use Rattle.stay_fields.specs.Resolve.{Resolvable};

    // The next number, from low to high.
    #[tactic(auto, unfolding(crate::specs::Parse::field_at))]
    fn field(&mut self, low: u8, high: u8, refusal: Refusal) -> Result<u8, Refusal>
        ensures value { read_field result self.new.at ≡ field_at self.old.bytes.now self.old.at low high (code_of refusal) }
        ensures range { IfOk result (λ v. (low ≤ v) × (v ≤ high)) }
        ensures bytes { self.new.bytes ≡ self.old.bytes }
    {
        let got = number::read(self.bytes, self.at);
        let Number::Value(v, next) = got else {
            return Err(got.refusal());
        };
        if v < u32::from(low) || u32::from(high) < v {
            return Err(refusal);
        }
        self.at = next;
        Ok(v as u8)
    }

    // A location: its kind, then its stay fields.
    #[tactic(auto, unfolding(model::specs::Each::each, crate::specs::Parse::kind_at, crate::specs::Parse::invariant_at))]
    fn location(&mut self, m: &mut Model, l: usize) -> Result<(), Refusal>
        requires { Counted m.old × (l < max_locations) }
        ensures read { Ends result self.new m.new (parse_location self.old.bytes.now m.old.clocks m.old.ceiling l (going self.old.at m.old)) }
        ensures bytes { self.new.bytes ≡ self.old.bytes }
        ensures same { SameHeader m.old m.new }
    {
        m.kind[l] = self.field(0, 1, Refusal::Location)?;
        for x in 0..usize::from(m.clocks) {
            m.invariant[STRIDE * l + x] = self.field(0, m.ceiling + 1, Refusal::Location)?;
        }
        Ok(())
    }

    #[tactic(auto, unfolding(model::specs::Each::each))]
    fn locations(&mut self, m: &mut Model) -> Result<(), Refusal>
        requires { Counted m.old }
        ensures read { Ends result self.new m.new (each m.old.locations (parse_location self.old.bytes.now m.old.clocks m.old.ceiling) (going self.old.at m.old)) }
        ensures bytes { self.new.bytes ≡ self.old.bytes }
        ensures same { SameHeader m.old m.new }
    {
        for l in 0..usize::from(m.locations) {
            self.location(m, l)?;
        }
        Ok(())
    }

    // Source, target and reset mask of an edge.
    #[tactic(auto, unfolding(crate::specs::Parse::ends_at))]
    fn ends(&mut self, m: &mut Model, e: usize) -> Result<(), Refusal>
        requires { Counted m.old × (e < max_edges) }
        ensures read { Ends result self.new m.new (ends_at self.old.bytes.now m.old.clocks m.old.locations e (going self.old.at m.old)) }
        ensures bytes { self.new.bytes ≡ self.old.bytes }
        ensures same { SameHeader m.old m.new }
    {
        m.source[e] = self.field(0, m.locations - 1, Refusal::Edge)?;
        m.target[e] = self.field(0, m.locations - 1, Refusal::Edge)?;
        m.reset[e] = self.field(0, largest_mask(m.clocks), Refusal::Edge)?;
        Ok(())
    }

    // Low and high of an edge for a clock.
    #[tactic(auto, unfolding(crate::specs::Parse::guard_at))]
    fn guard(&mut self, m: &mut Model, e: usize, x: usize) -> Result<(), Refusal>
        requires { Counted m.old × (e < max_edges) × (x < max_clocks) }
        ensures read { Ends result self.new m.new (guard_at self.old.bytes.now m.old.ceiling e x (going self.old.at m.old)) }
        ensures bytes { self.new.bytes ≡ self.old.bytes }
        ensures same { SameHeader m.old m.new }
    {
        let low = self.field(0, m.ceiling, Refusal::Edge)?;
        let high = self.field(low, m.ceiling, Refusal::Edge)?;
        m.lower[STRIDE * e + x] = low;
        m.upper[STRIDE * e + x] = high;
        Ok(())
    }

    // An edge: its ends, then its guards.
    #[tactic(auto, using(crate::proofs::Stops::edge_refused), unfolding(model::specs::Each::each))]
    fn edge(&mut self, m: &mut Model, e: usize) -> Result<(), Refusal>
        requires { Counted m.old × (e < max_edges) }
        ensures read { Ends result self.new m.new (parse_edge self.old.bytes.now m.old.clocks m.old.ceiling m.old.locations e (going self.old.at m.old)) }
        ensures bytes { self.new.bytes ≡ self.old.bytes }
        ensures same { SameHeader m.old m.new }
    {
        self.ends(m, e)?;
        for x in 0..usize::from(m.clocks) {
            self.guard(m, e, x)?;
        }
        Ok(())
    }

    #[tactic(auto, unfolding(model::specs::Each::each))]
    fn edges(&mut self, m: &mut Model) -> Result<(), Refusal>
        requires { Counted m.old }
        ensures read { Ends result self.new m.new (each m.old.edges (parse_edge self.old.bytes.now m.old.clocks m.old.ceiling m.old.locations) (going self.old.at m.old)) }
        ensures bytes { self.new.bytes ≡ self.old.bytes }
        ensures same { SameHeader m.old m.new }
    {
        for e in 0..usize::from(m.edges) {
            self.edge(m, e)?;
        }
        Ok(())
    }

    // The model with limits for stay fields, if nothing follows it.
    fn finish(&self, mark: u8, m: &Model) -> Result<Model, Refusal>
        requires { Resolvable m.now }
        ensures { with_mark mark result ≡ finish self.now.bytes.now mark (going self.now.at m.now) }
    {
        if self.at < self.bytes.len() {
            return Err(Refusal::BytesRemain);
        }
        Ok(resolve_model(mark, m))
    }

    // The locations, the edges and the end, after the header that the model has.
    fn body(&mut self, mark: u8, m: &mut Model) -> Result<Model, Refusal>
        requires counted { Counted m.old }
        requires blank { m.old ≡ blank m.old.clocks m.old.ceiling m.old.locations m.old.edges m.old.start }
        ensures { with_mark mark result ≡ parse_body self.old.bytes.now self.old.at mark m.old.clocks m.old.ceiling m.old.locations m.old.edges m.old.start }
    {
        self.locations(m)?;
        self.edges(m)?;
        self.finish(mark, m)
    }

    // From the number of locations on.
    #[tactic(auto, unfolding(crate::specs::Parse::parse_counts))]
    fn counts(&mut self, mark: u8, clocks: u8, ceiling: u8) -> Result<Model, Refusal>
        requires { (1 ≤ clocks) × (clocks ≤ max_clocks) × (ceiling ≤ max_ceiling) }
        ensures { with_mark mark result ≡ parse_counts self.old.bytes.now self.old.at mark clocks ceiling }
    {
        let locations = self.field(1, LOCATIONS, Refusal::Header)?;
        let edges = self.field(0, EDGES, Refusal::Header)?;
        let start = self.field(0, locations - 1, Refusal::Header)?;
        let mut m = blank_model(clocks, ceiling, locations, edges, start);
        self.body(mark, &mut m)
    }
}

// The plan that the bytes spell, or the refusal, 1 to 6.
#[tactic(auto, unfolding(crate::specs::Parse::parse_model))]
pub fn parse_model(bytes: &[u8]) -> Result<Plan, Refusal>
    ensures { numbered result ≡ parse_model bytes.now }
{
    let mut numbers = Cursor { bytes, at: 0 };
    let mark = numbers.field(1, MARKS, Refusal::Header)?;
    let clocks = numbers.field(1, CLOCKS, Refusal::Header)?;
    let ceiling = numbers.field(1, CEILING, Refusal::Header)?;
    let model = numbers.counts(mark, clocks, ceiling)?;
    Ok(Plan { mark, model })
}
