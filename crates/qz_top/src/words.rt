//! The words of a command: what they ask for, and why they are refused.
ghost use Rattle.std.specs.Prelude.{◌≡◌, ◌<◌, ◌≤◌, ℕ, [], length, drop, map, slice_index_or, string_bytes, Some, None, IfSome, IfOk, MatchResult};
ghost use Rattle.std.specs.Option.{option_map};
ghost use Rattle.qz_search.specs.PlanFaults.{plan_refusal};
ghost use Rattle.qz_top.specs.Words.{number_of, option_named, has_option, option_of, takes_value, no_options, IsFileWithin, new_number, new_file, new_table, with_value, without_value, options_from, workers_of, seed_of, grain_of, plan_of};
ghost use Rattle.qz_top.specs.Words.{which_of, which_of_plan, workers_limit, trial_limit, AreWorkers, IsTrialSize, IsLawfulCommand, IsWithinWords, unless_passed, generation, optimisation, trial, limits_of, generation_asked, optimisation_asked, tidying_asked, trial_asked, check_asked, command_by, command_of};

use crate::cost_table::{CostTable, cost_table, weights_of};
use qz_circ::{Bounds, LimitFault, MOST_GATES, MOST_QUBITS, Which};
use qz_search::{Plan, PlanFault};

/// What the words ask for.
#[derive(Clone, Copy, Debug, PartialEq, Eq)]
pub enum Command {
    /// To generate the rules of these bounds.
    Generate {
        bounds: Bounds,
        /// From 1 to 16.
        workers: u64,
        /// What goes to the output doesn't depend on it.
        seed: u64,
        /// Whether a report is asked for.
        report: bool,
    },
    /// To write the canonical text of the program that the input is.
    Tidy,
    /// To optimise the program that the input is by the rules in a file.
    Optimise {
        /// The number of the word that names the file, counted from 0 and below the number of words.
        rules: usize,
        plan: Plan,
        /// From 1 to 16.
        workers: u64,
    },
    /// To make a circuit, and to tell how many gates the search leaves of it.
    Trial {
        /// From which the circuit is made.
        seed: u64,
        /// From 1 to 64.
        qubits: u64,
        /// At most 20,000.
        gates: u64,
    },
    /// To tell whether the program that the input is and the one in a file are equivalent.
    Check {
        /// The number of the word that names the file, counted from 0 and below the number of words.
        other: usize,
    },
}

/// Why words are no command that can be carried out.
#[derive(Clone, Copy, Debug, PartialEq, Eq)]
pub enum WordFault {
    /// They are in no written form.
    Usage,
    /// They are in a written form, with a number past this limit, the first such one.
    Limit(Which),
}

// The written forms that have options.
#[derive(Clone, Copy)]
pub(crate) enum Form {
    Generate,
    Optimise,
}

// An option, by its name.
#[derive(Clone, Copy)]
pub(crate) enum OptionName {
    Workers,
    Seed,
    Report,
    Grain,
    Rules,
    Rounds,
    Batch,
    Cap,
    Slack,
    Cost,
}

// The options that are given, with their values; of the rule file the number of the word that names it.
#[derive(Clone, Copy)]
pub(crate) struct Options {
    pub(crate) workers: Option<u64>,
    pub(crate) seed: Option<u64>,
    pub(crate) report: bool,
    pub(crate) grain: Option<u64>,
    pub(crate) rules: Option<usize>,
    pub(crate) rounds: Option<u64>,
    pub(crate) batch: Option<u64>,
    pub(crate) cap: Option<u64>,
    pub(crate) slack: Option<u64>,
    pub(crate) cost: Option<CostTable>,
}

// The value of one to eighteen digits.
#[tactic(auto, using(std::proofs::lemmas::Bool::Decides::nat_tests), unfolding(crate::specs::Words::number_of))]
fn number(word: &str) -> Option<u64>
    ensures { result ≡ number_of word.now }
{
    let digits = word.as_bytes();
    if digits.is_empty() {
        return None;
    }
    if digits.len() > 18 {
        return None;
    }
    let mut value: u64 = 0;
    for digit in digits {
        if !digit.is_ascii_digit() {
            return None;
        }
        value = 10 * value + (*digit - b'0') as u64;
    }
    Some(value)
}

// The word with this number, counted from 0.
pub(crate) fn word(words: &[String], k: usize) -> &str
    requires { k < length words.now }
    ensures { result.now ≡ slice_index_or (map string_bytes words.now) k [] }
{
    words[k].as_str()
}

// ---- options

// The option that a word names.
#[tactic(auto, unfolding(crate::specs::Words::option_named))]
fn option_named(word: &str) -> Option<OptionName>
    ensures { result ≡ option_named word.now }
{
    match word {
        "--workers" => Some(OptionName::Workers),
        "--seed" => Some(OptionName::Seed),
        "--report" => Some(OptionName::Report),
        "--grain" => Some(OptionName::Grain),
        "--rules" => Some(OptionName::Rules),
        "--rounds" => Some(OptionName::Rounds),
        "--batch" => Some(OptionName::Batch),
        "--cap" => Some(OptionName::Cap),
        "--slack" => Some(OptionName::Slack),
        "--cost" => Some(OptionName::Cost),
        _ => None,
    }
}

// Whether words of this form may have this option.
fn has_option(form: Form, name: OptionName) -> bool
    ensures { result ≡ has_option form name }
{
    match form {
        Form::Generate => matches!(
            name,
            OptionName::Workers | OptionName::Seed | OptionName::Report | OptionName::Grain
        ),
        Form::Optimise => !matches!(
            name,
            OptionName::Seed | OptionName::Report | OptionName::Grain
        ),
    }
}

// The option of this form that a word names.
fn option_of(form: Form, word: &str) -> Option<OptionName>
    ensures { result ≡ option_of form word.now }
{
    let name = option_named(word)?;
    if has_option(form, name) {
        Some(name)
    } else {
        None
    }
}

// Whether the word after this option is its value.
fn takes_value(name: OptionName) -> bool
    ensures { result ≡ takes_value name }
{
    !matches!(name, OptionName::Report)
}

// The number that a word is, for an option that has no number yet.
pub(crate) fn new_number(earlier: Option<u64>, word: &str) -> Option<u64>
    ensures { result ≡ new_number earlier word.now }
{
    match earlier {
        None => number(word),
        Some(_) => None,
    }
}

// The place of a word that names a file, for an option that has none yet.
fn new_file(earlier: Option<usize>, k: usize, word: &str) -> Option<usize>
    ensures { result ≡ new_file earlier k word.now }
{
    if earlier.is_some() || word.is_empty() {
        return None;
    }
    Some(k)
}

// The table that a word is, for an option that has none yet.
fn new_table(earlier: Option<CostTable>, word: &str) -> Option<CostTable>
    ensures { result ≡ new_table earlier word.now }
{
    match earlier {
        None => cost_table(word),
        Some(_) => None,
    }
}

impl Options {
    // No option is given.
    fn none() -> Options
        ensures { result ≡ no_options }
    {
        Options {
            workers: None,
            seed: None,
            report: false,
            grain: None,
            rules: None,
            rounds: None,
            batch: None,
            cap: None,
            slack: None,
            cost: None,
        }
    }

    // These options and one more, whose value is this word, the one with number k.
    fn with_value(self, name: OptionName, k: usize, word: &str) -> Option<Options>
        ensures value { result ≡ with_value self name k word.now }
        ensures within { (n : ℕ) → k < n → IsFileWithin n self → IfSome result (IsFileWithin n) }
    {
        match name {
            OptionName::Workers => Some(Options {
                workers: Some(new_number(self.workers, word)?),
                ..self
            }),
            OptionName::Seed => Some(Options {
                seed: Some(new_number(self.seed, word)?),
                ..self
            }),
            OptionName::Report => None,
            OptionName::Grain => Some(Options {
                grain: Some(new_number(self.grain, word)?),
                ..self
            }),
            OptionName::Rules => Some(Options {
                rules: Some(new_file(self.rules, k, word)?),
                ..self
            }),
            OptionName::Rounds => Some(Options {
                rounds: Some(new_number(self.rounds, word)?),
                ..self
            }),
            OptionName::Batch => Some(Options {
                batch: Some(new_number(self.batch, word)?),
                ..self
            }),
            OptionName::Cap => Some(Options {
                cap: Some(new_number(self.cap, word)?),
                ..self
            }),
            OptionName::Slack => Some(Options {
                slack: Some(new_number(self.slack, word)?),
                ..self
            }),
            OptionName::Cost => Some(Options {
                cost: Some(new_table(self.cost, word)?),
                ..self
            }),
        }
    }

    // These options and one more that has no value.
    fn without_value(self, name: OptionName) -> Option<Options>
        ensures value { result ≡ without_value self name }
        ensures within { (n : ℕ) → IsFileWithin n self → IfSome result (IsFileWithin n) }
    {
        match name {
            OptionName::Report if !self.report => Some(Options {
                report: true,
                ..self
            }),
            _ => None,
        }
    }

    // How many workers are asked for.
    fn workers(self) -> u64
        ensures { result ≡ workers_of self }
    {
        self.workers.unwrap_or(1)
    }

    // The seed.
    fn seed(self) -> u64
        ensures { result ≡ seed_of self }
    {
        self.seed.unwrap_or(0)
    }

    // The grain.
    fn grain(self) -> u64
        ensures { result ≡ grain_of self }
    {
        self.grain.unwrap_or(4)
    }

    // The plan, or the first of its numbers that is refused.
    fn plan(self) -> Result<Plan, PlanFault>
        ensures { MatchResult result (λ p. (p ≡ plan_of self) × (plan_refusal (plan_of self) ≡ None)) (λ fault. plan_refusal (plan_of self) ≡ Some fault) }
    {
        Plan::weighted(
            self.rounds.unwrap_or(16),
            self.batch.unwrap_or(8),
            self.cap.unwrap_or(100),
            self.slack.unwrap_or(0),
            weights_of(self.cost),
        )
    }
}

// These options and the one that the word with number k names; and the number of the word after it.
fn next_option(form: Form, given: Options, words: &[String], k: usize) -> Option<(Options, usize)>
    requires { k < length words.now }
    ensures none { result ≡ None → options_from form given k (drop k (map string_bytes words.now)) ≡ None }
    ensures next { IfSome result (λ next. options_from form given k (drop k (map string_bytes words.now)) ≡ options_from form next.0 next.1 (drop next.1 (map string_bytes words.now))) }
    ensures ahead { IfSome result (λ next. (k < next.1) × (next.1 ≤ length words.now)) }
    ensures within { IsFileWithin (length words.now) given → IfSome result (λ next. IsFileWithin (length words.now) next.0) }
{
    let name = option_of(form, word(words, k))?;
    if !takes_value(name) {
        let more = given.without_value(name)?;
        return Some((more, k + 1));
    }
    if k + 1 == words.len() {
        return None;
    }
    let more = given.with_value(name, k + 1, word(words, k + 1))?;
    Some((more, k + 2))
}

// The options of the words from number `first` on.
fn options_from(form: Form, words: &[String], first: usize) -> Option<Options>
    requires { first ≤ length words.now }
    ensures value { result ≡ options_from form no_options first (drop first (map string_bytes words.now)) }
    ensures within { IfSome result (IsFileWithin (length words.now)) }
{
    let mut given = Options::none();
    let mut k = first;
    while k < words.len() {
        let (more, next) = next_option(form, given, words, k)?;
        given = more;
        k = next;
    }
    Some(given)
}

// ---- limits

// The limit that refused bounds pass.
pub(crate) fn limit_of(fault: LimitFault) -> Which
    ensures { result ≡ which_of fault }
{
    match fault {
        LimitFault::Qubits => Which::BoundsQubits,
        LimitFault::Gates => Which::BoundsGates,
        LimitFault::Params => Which::BoundsParams,
        LimitFault::Grain => Which::BoundsGrain,
        LimitFault::Circuits => Which::BoundsCircuits,
    }
}

// The limit that a refused plan passes.
fn limit_of_plan(fault: PlanFault) -> Which
    ensures { result ≡ which_of_plan fault }
{
    match fault {
        PlanFault::Batch => Which::PlanBatch,
        PlanFault::Cap => Which::PlanCap,
        PlanFault::Rounds => Which::PlanRounds,
        PlanFault::Slack => Which::PlanSlack,
        PlanFault::Weight => Which::CostWeight,
    }
}

// The limit that a number of workers passes, if it does.
#[tactic(auto, using(std::proofs::lemmas::Bool::Decides::nat_tests))]
fn workers_limit(workers: u64) -> Option<Which>
    ensures limit { result ≡ workers_limit workers }
    ensures none { result ≡ None → AreWorkers workers }
{
    if workers < 1 || workers > 16 {
        return Some(Which::Workers);
    }
    None
}

// The first limit that the numbers of a trial pass, if they do.
#[tactic(auto, using(std::proofs::lemmas::Bool::Decides::nat_tests))]
fn trial_limit(qubits: u64, gates: u64) -> Option<Which>
    ensures limit { result ≡ trial_limit qubits gates }
    ensures none { result ≡ None → IsTrialSize qubits gates }
{
    if qubits < 1 || qubits > MOST_QUBITS as u64 {
        return Some(Which::TrialQubits);
    }
    if gates > MOST_GATES as u64 {
        return Some(Which::TrialGates);
    }
    None
}

// The command, unless a limit is passed.
fn unless_passed(limit: Option<Which>, command: Command) -> Result<Command, WordFault>
    ensures command { result ≡ unless_passed limit command }
    ensures lawful { (limit ≡ None → IsLawfulCommand command) → IfOk result IsLawfulCommand }
    ensures within { (most : ℕ) → IsWithinWords most command → IfOk result (IsWithinWords most) }
{
    match limit {
        None => Ok(command),
        Some(which) => Err(WordFault::Limit(which)),
    }
}

// ---- commands

// The generation within these limits and with these options.
fn generation(n: u64, q: u64, m: u64, given: Options) -> Result<Command, WordFault>
    ensures command { result ≡ generation (record { n = n; q = q; m = m; grain = grain_of given }) given }
    ensures lawful { IfOk result IsLawfulCommand }
    ensures within { (most : ℕ) → IfOk result (IsWithinWords most) }
{
    match Bounds::with_grain(n, q, m, given.grain()) {
        Ok(bounds) => unless_passed(
            workers_limit(given.workers()),
            Command::Generate {
                bounds,
                workers: given.workers(),
                seed: given.seed(),
                report: given.report,
            },
        ),
        Err(fault) => Err(WordFault::Limit(limit_of(fault))),
    }
}

// The optimisation by the file that the word with this number names and with these options.
fn optimisation(rules: usize, given: Options) -> Result<Command, WordFault>
    ensures command { result ≡ optimisation rules given }
    ensures lawful { IfOk result IsLawfulCommand }
    ensures within { (most : ℕ) → rules < most → IfOk result (IsWithinWords most) }
{
    match given.plan() {
        Ok(plan) => unless_passed(
            workers_limit(given.workers()),
            Command::Optimise {
                rules,
                plan,
                workers: given.workers(),
            },
        ),
        Err(fault) => Err(WordFault::Limit(limit_of_plan(fault))),
    }
}

// The trial with these numbers.
fn trial(seed: u64, qubits: u64, gates: u64) -> Result<Command, WordFault>
    ensures command { result ≡ trial seed qubits gates }
    ensures lawful { IfOk result IsLawfulCommand }
    ensures within { (most : ℕ) → IfOk result (IsWithinWords most) }
{
    unless_passed(
        trial_limit(qubits, gates),
        Command::Trial {
            seed,
            qubits,
            gates,
        },
    )
}

// The numbers of these three words.
fn three_numbers(n: &str, q: &str, m: &str) -> Option<(u64, u64, u64)>
    ensures { (grain : ℕ) → limits_of grain (number_of n.now) (number_of q.now) (number_of m.now) ≡ option_map (λ t. record { n = t.0; q = t.1; m = t.2; grain = grain }) result }
{
    Some((number(n)?, number(q)?, number(m)?))
}

// The generation that the words ask for.
#[tactic(auto, unfolding(crate::specs::Words::generation_asked))]
fn generation_asked(words: &[String]) -> Result<Command, WordFault>
    ensures command { result ≡ generation_asked (map string_bytes words.now) }
    ensures lawful { IfOk result IsLawfulCommand }
    ensures within { IfOk result (IsWithinWords (length words.now)) }
{
    let [_, n, q, m, ..] = words else {
        return Err(WordFault::Usage);
    };
    let Some(given) = options_from(Form::Generate, words, 4) else {
        return Err(WordFault::Usage);
    };
    let Some((n, q, m)) = three_numbers(n, q, m) else {
        return Err(WordFault::Usage);
    };
    generation(n, q, m, given)
}

// The optimisation that the words ask for.
#[tactic(auto, unfolding(crate::specs::Words::optimisation_asked))]
fn optimisation_asked(words: &[String]) -> Result<Command, WordFault>
    ensures command { result ≡ optimisation_asked (map string_bytes words.now) }
    ensures lawful { IfOk result IsLawfulCommand }
    ensures within { IfOk result (IsWithinWords (length words.now)) }
{
    if words.is_empty() {
        return Err(WordFault::Usage);
    }
    let Some(given) = options_from(Form::Optimise, words, 1) else {
        return Err(WordFault::Usage);
    };
    let Some(rules) = given.rules else {
        return Err(WordFault::Usage);
    };
    optimisation(rules, given)
}

// To tidy a program, where nothing comes after the first word.
#[tactic(auto, unfolding(crate::specs::Words::tidying_asked))]
fn tidying_asked(words: &[String]) -> Result<Command, WordFault>
    ensures command { result ≡ tidying_asked (map string_bytes words.now) }
    ensures lawful { IfOk result IsLawfulCommand }
    ensures within { IfOk result (IsWithinWords (length words.now)) }
{
    match words {
        [_] => Ok(Command::Tidy),
        _ => Err(WordFault::Usage),
    }
}

// The trial that the words ask for.
#[tactic(auto, unfolding(crate::specs::Words::trial_asked))]
fn trial_asked(words: &[String]) -> Result<Command, WordFault>
    ensures command { result ≡ trial_asked (map string_bytes words.now) }
    ensures lawful { IfOk result IsLawfulCommand }
    ensures within { IfOk result (IsWithinWords (length words.now)) }
{
    let [_, seed, qubits, gates] = words else {
        return Err(WordFault::Usage);
    };
    let Some(seed) = number(seed) else {
        return Err(WordFault::Usage);
    };
    let Some(qubits) = number(qubits) else {
        return Err(WordFault::Usage);
    };
    let Some(gates) = number(gates) else {
        return Err(WordFault::Usage);
    };
    trial(seed, qubits, gates)
}

// The check that the words ask for.
#[tactic(auto, unfolding(crate::specs::Words::check_asked))]
fn check_asked(words: &[String]) -> Result<Command, WordFault>
    ensures command { result ≡ check_asked (map string_bytes words.now) }
    ensures lawful { IfOk result IsLawfulCommand }
    ensures within { IfOk result (IsWithinWords (length words.now)) }
{
    let [_, option, file] = words else {
        return Err(WordFault::Usage);
    };
    if option.as_str() != "--with" {
        return Err(WordFault::Usage);
    }
    if file.is_empty() {
        return Err(WordFault::Usage);
    }
    Ok(Command::Check { other: 2 })
}

// What the words ask for, of which this is the first one.
#[tactic(auto, unfolding(crate::specs::Words::command_by))]
fn command_by(first: &str, words: &[String]) -> Result<Command, WordFault>
    ensures command { result ≡ command_by first.now (map string_bytes words.now) }
    ensures lawful { IfOk result IsLawfulCommand }
    ensures within { IfOk result (IsWithinWords (length words.now)) }
{
    match first {
        "generate" => generation_asked(words),
        "optimise" => optimisation_asked(words),
        "tidy" => tidying_asked(words),
        "trial" => trial_asked(words),
        "check" => check_asked(words),
        _ => Err(WordFault::Usage),
    }
}

/// What the words ask for. Takes no memory.
#[tactic(auto, unfolding(crate::specs::Words::command_of))]
pub fn read_words(words: &[String]) -> Result<Command, WordFault>
    ensures command { result ≡ command_of (map string_bytes words.now) }
    ensures lawful { IfOk result IsLawfulCommand }
    ensures within { IfOk result (IsWithinWords (length words.now)) }
{
    match words {
        [] => Err(WordFault::Usage),
        [first, ..] => command_by(first.as_str(), words),
    }
}
