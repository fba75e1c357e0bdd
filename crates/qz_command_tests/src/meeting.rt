//! Two workers of a generation really meet, and each circuit is put once.
ghost use Rattle.std.specs.Prelude.{◌≡◌, ◌<◌, length};
ghost use Rattle.qz_circ.specs.Order.{all_circuits};

use crate::workers::is_written;
use qz_circ::{Bounds, Memory, unrank};
use qz_crew::{Moment, Receipt, Turnstile};
use qz_finger::Probe;
use qz_samples::two_gates;
use std::alloc::{AllocError, Global};
use std::process::Abort;
use std::sync::atomic::{AtomicU64, Ordering};
use std::test::Fail;
use std::thread;

const MOST_TURNS: u64 = 2_000_000_000;

// Ranks 0 to 90 are those of the circuits of at most two gates on one qubit without parameters.
const RANKS: u64 = 91;

// Holds each of two workers at its first rank until the other one has had one, and notes each receipt by its rank.
#[derive(Drop)]
struct Meeting {
    first: AtomicU64,
    second: AtomicU64,
    let_go: AtomicU64,
    puts: AtomicU64,
    times: Vec<AtomicU64>,
    shards: Vec<AtomicU64>,
    places: Vec<AtomicU64>,
}

fn zeros(alloc: Global) -> Result<Vec<AtomicU64>, AllocError> {
    let mut all = Vec::new(alloc);
    for _ in 0..RANKS {
        all.push(AtomicU64::new(0))?;
    }
    Ok(all)
}

fn number_at(numbers: &Vec<AtomicU64>, rank: u64) -> u64 {
    match numbers.get(rank as usize) {
        Some(number) => number.load(Ordering::SeqCst),
        None => 0,
    }
}

fn put_at(numbers: &Vec<AtomicU64>, rank: u64, value: u64) {
    if let Some(number) = numbers.get(rank as usize) {
        number.store(value, Ordering::SeqCst);
    }
}

// Whether the other one came, within the bound.
fn came(other: &AtomicU64) -> bool {
    for _ in 0..MOST_TURNS {
        if other.load(Ordering::SeqCst) > 0 {
            return true;
        }
        thread::yield_now();
    }
    false
}

impl Meeting {
    fn new(alloc: Global) -> Result<Meeting, AllocError> {
        Ok(Meeting {
            first: AtomicU64::new(0),
            second: AtomicU64::new(0),
            let_go: AtomicU64::new(0),
            puts: AtomicU64::new(0),
            times: zeros(alloc)?,
            shards: zeros(alloc)?,
            places: zeros(alloc)?,
        })
    }

    fn meet(&self, worker: u64) {
        let (mine, other) = if worker == 0 {
            (&self.first, &self.second)
        } else {
            (&self.second, &self.first)
        };
        if mine.fetch_add(1, Ordering::SeqCst) == 0 && came(other) {
            self.let_go.fetch_add(1, Ordering::SeqCst);
        }
    }

    fn note(&self, receipt: Receipt) {
        self.puts.fetch_add(1, Ordering::SeqCst);
        if let Some(times) = self.times.get(receipt.item() as usize) {
            times.fetch_add(1, Ordering::SeqCst);
        }
        put_at(&self.shards, receipt.item(), receipt.shard());
        put_at(&self.places, receipt.item(), receipt.place());
    }

    // How many of the ranks that were put are in the shard, at this place or before it.
    fn up_to(&self, shard: u64, place: u64) -> u64 {
        let mut found = 0u64;
        for r in 1..RANKS {
            if number_at(&self.shards, r) == shard && number_at(&self.places, r) <= place {
                found = found.saturating_add(1);
            }
        }
        found
    }
}

impl Turnstile for Meeting {
    fn at(&self, worker: u64, moment: Moment) {
        match moment {
            Moment::Claimed => self.meet(worker),
            Moment::Put(receipt) => self.note(receipt),
            _ => {}
        }
    }
}

// The probe of the seed 0 for the bounds' qubits.
fn probe_for(b: Bounds) -> Probe
    ensures { result ≡ record { seed = 0; q = b.q } }
{
    Probe::new(0, b.q())
}

// The shard of the circuit with this rank: its fingerprint's remainder by 16.
fn home(alloc: Global, b: Bounds, probe: Probe, r: u64) -> Result<u64, Memory>
    requires rank { r < length (all_circuits b) }
    requires qubits { probe.q ≡ b.q }
{
    let circuit = unrank(alloc, r, b)?;
    Ok(probe.finger(&circuit) % 16)
}

// The shard of each rank.
fn homes(alloc: Global, b: Bounds) -> Result<Vec<u64>, Fail> {
    let probe = probe_for(b);
    let mut homes = Vec::new(alloc);
    for r in 0..b.circuits() {
        homes.push(home(alloc, b, probe, r)?)?;
    }
    Ok(homes)
}

// Whether the rank was put once, into its shard, and the places of that shard up to its own are taken, each once: from 1 on in
// the shard of the empty circuit, and else from 0 on.
fn is_put(meeting: &Meeting, homes: &[u64], r: u64) -> bool {
    let Some(home) = homes.get(r as usize) else {
        return false;
    };
    let place = number_at(&meeting.places, r);
    let before = if homes.first() == Some(home) { 0 } else { 1 };
    number_at(&meeting.times, r) == 1
        && number_at(&meeting.shards, r) == *home
        && meeting.up_to(*home, place) == place.saturating_add(before)
}

// A crew that works on one thread reaches the bound, and has let nobody go.
#[test]
fn two_workers_meet_and_put_each_circuit_once(rt: HostRuntime) -> Result<(), Fail> {
    let meeting = Meeting::new(rt.alloc())?;
    let homes = homes(rt.alloc(), Bounds::new(2, 1, 0)?)?;
    let words = "generate 2 1 0 --workers 2";
    assert!(rt; is_written(&rt, rt.alloc(), words, two_gates().as_bytes(), &meeting));
    assert!(rt; meeting.let_go.load(Ordering::SeqCst) == 2);
    assert!(rt; meeting.puts.load(Ordering::SeqCst) == 90);
    assert!(rt; number_at(&meeting.times, 0) == 0);
    for r in 1..RANKS {
        assert!(rt; is_put(&meeting, &homes, r));
    }
    Ok(())
}
