//! A stage by itself: many ranks play at it without a hall, one at a time, and count what they see.
//!
//! Each rank has a thread. The test looks at their counts, and fails after too many looks: a rank
//! that is left asleep, and one that never begins, end a test too.
use crate::ranks::stands;
use rank_stage::{Instance, Role, Stage};
use std::process::Abort;
use std::sync::Wait;
use std::sync::atomic::{AtomicU64, Ordering};
use std::test::Fail;
use std::thread;
use std::thread::Threads;
use std::time::{Clock, CpuClock, Duration};

/// How often the counts are looked at before a test fails.
const LOOKS: u64 = 10_000_000;

/// On how many communicators the ranks post.
const COMMS: u32 = 3;

/// What the ranks of a stage see.
#[derive(Drop)]
struct Sight {
    /// How many ranks there are.
    ranks: u64,
    /// How many have begun, and ended.
    begun: AtomicU64,
    ended: AtomicU64,
    /// How many went home.
    home: AtomicU64,
    /// How many play: one at most.
    playing: AtomicU64,
    /// How many posts were made, on each communicator.
    posts: [AtomicU64; 3],
    /// How many of those who slept for something that never settles were told so.
    told: AtomicU64,
    /// How much processor time the ranks took that slept beside others, in microseconds.
    micros: AtomicU64,
    /// What does not fit.
    wrong: AtomicU64,
}

fn new_sight(ranks: u64) -> Sight {
    Sight {
        ranks,
        begun: AtomicU64::new(0),
        ended: AtomicU64::new(0),
        home: AtomicU64::new(0),
        playing: AtomicU64::new(0),
        posts: [AtomicU64::new(0), AtomicU64::new(0), AtomicU64::new(0)],
        told: AtomicU64::new(0),
        micros: AtomicU64::new(0),
        wrong: AtomicU64::new(0),
    }
}

fn add_one(count: &AtomicU64) -> u64 {
    count.fetch_add(1, Ordering::SeqCst)
}

impl Sight {
    fn expect(&self, is: bool) {
        if !is {
            add_one(&self.wrong);
        }
    }

    /// It plays, and nobody else does.
    fn enter(&self) {
        self.expect(add_one(&self.playing) == 0);
    }

    /// It plays no more. Another that played meanwhile was seen.
    fn leave(&self) {
        self.expect(self.playing.fetch_sub(1, Ordering::SeqCst) == 1);
    }

    /// It begins. One that goes home is seen: it does not end.
    fn begin<R: Wait>(&self, rt: &R, stage: &Stage, rank: usize) -> Option<Role> {
        let Ok(role) = stage.begin(rt, rank) else {
            return None;
        };
        self.enter();
        add_one(&self.begun);
        Some(role)
    }

    fn end<R: Wait>(&self, rt: &R, stage: &Stage, role: Role) {
        self.leave();
        stage.end(rt, role);
        add_one(&self.ended);
    }

    /// A post on a communicator, which settles the instance if it is the last.
    fn post<R: Wait>(&self, rt: &R, stage: &Stage, comm: u32) {
        let Some(posts) = self.posts.get(comm as usize) else {
            return;
        };
        let before = add_one(posts);
        if before.wrapping_add(1).is_multiple_of(self.ranks.max(1)) {
            stage.settle(rt, comm);
        }
    }

    fn has_settled(&self, it: Instance) -> bool {
        let Some(posts) = self.posts.get(it.comm as usize) else {
            return false;
        };
        posts.load(Ordering::SeqCst) / self.ranks.max(1) > it.number
    }

    /// It sleeps, and is told whether the instance has settled.
    fn sleep<R: Wait>(&self, rt: &R, stage: &Stage, role: &Role, it: Instance) -> bool {
        self.leave();
        let settled = stage.sleep(rt, role, it);
        self.enter();
        self.expect(settled == self.has_settled(it));
        settled
    }

    /// It steps aside, and comes back.
    fn compute<R: Wait>(&self, rt: &R, stage: &Stage, role: &Role) {
        self.leave();
        let aside = stage.step_aside(rt, role);
        thread::yield_now();
        stage.step_back(rt, aside);
        self.enter();
    }
}

/// A count comes to a number. Fails after too many looks.
fn await_count<R: Abort>(rt: &R, count: &AtomicU64, wanted: u64) {
    for _ in 0..LOOKS {
        if count.load(Ordering::SeqCst) >= wanted {
            return;
        }
        thread::yield_now();
    }
    assert!(rt; false, "a rank is left asleep");
}

/// What a rank does once it may.
#[derive(Clone, Copy)]
enum Plan {
    /// So often: it posts on one communicator after another, and sleeps until that has settled; now
    /// and then it computes beside the others. Before, it does not sleep for an instance on a
    /// communicator that the stage does not have.
    Rounds(u64),
    /// It waits for what never settles.
    InVain,
    /// It goes home.
    GoHome,
}

fn play_rounds<R: Wait>(rt: &R, stage: &Stage, sight: &Sight, rank: usize, rounds: u64) {
    let Some(role) = sight.begin(rt, stage, rank) else {
        return;
    };
    let past = Instance {
        comm: COMMS,
        number: 0,
    };
    sight.expect(stage.sleep(rt, &role, past));
    for number in 0..rounds {
        for comm in 0..COMMS {
            sight.post(rt, stage, comm);
            sight.expect(sight.sleep(rt, stage, &role, Instance { comm, number }));
        }
        if (number ^ rank as u64).is_multiple_of(4) {
            sight.compute(rt, stage, &role);
        }
    }
    sight.end(rt, stage, role);
}

fn play_in_vain<R: Wait>(rt: &R, stage: &Stage, sight: &Sight, rank: usize) {
    let Some(role) = sight.begin(rt, stage, rank) else {
        return;
    };
    let comm = (rank % COMMS as usize) as u32;
    if !sight.sleep(rt, stage, &role, Instance { comm, number: 0 }) {
        add_one(&sight.told);
    }
    sight.end(rt, stage, role);
}

fn play<R: Wait>(rt: &R, stage: &Stage, sight: &Sight, rank: usize, plan: Plan) {
    match plan {
        Plan::Rounds(rounds) => play_rounds(rt, stage, sight, rank, rounds),
        Plan::InVain => play_in_vain(rt, stage, sight, rank),
        Plan::GoHome => go_home(rt, stage, sight, rank),
    }
}

/// A rank that begins all the same is seen: it ends, and is not home.
fn go_home<R: Wait>(rt: &R, stage: &Stage, sight: &Sight, rank: usize) {
    match stage.begin(rt, rank) {
        Ok(role) => sight.end(rt, stage, role),
        Err(_home) => {
            add_one(&sight.home);
        }
    }
}

/// Gives the threads time to do what they should not.
fn linger() {
    for _ in 0..2000 {
        thread::yield_now();
    }
}

/// A thread for each rank; nobody begins before the start, and all come to their ends.
fn play_all<R: Threads + Wait + Sync + Abort>(rt: &R, stage: &Stage, sight: &Sight, plan: Plan) {
    thread::scope(thread::scope_env(), rt, |scope| {
        for rank in 0..sight.ranks as usize {
            let refused = scope
                .spawn(move || play(rt, stage, sight, rank, plan))
                .is_err();
            assert!(rt; !refused);
        }
        linger();
        stands(rt, &sight.begun, 0);
        stands(rt, &sight.home, 0);
        match plan {
            Plan::GoHome => {
                assert!(rt; stage.release(rt, false).is_err());
                await_count(rt, &sight.home, sight.ranks);
            }
            Plan::Rounds(_) | Plan::InVain => {
                assert!(rt; stage.release(rt, true).is_ok());
                await_count(rt, &sight.ended, sight.ranks);
            }
        }
    });
    stands(rt, &sight.wrong, 0);
}

/// What does not fit is counted, and nothing else: were it not, no test here would fail.
#[test]
fn what_does_not_fit_is_seen(rt: HostRuntime) {
    let sight = new_sight(2);
    sight.expect(true);
    stands(&rt, &sight.wrong, 0);
    sight.expect(false);
    stands(&rt, &sight.wrong, 1);
    sight.enter();
    stands(&rt, &sight.wrong, 1);
    sight.enter();
    stands(&rt, &sight.wrong, 2);
    sight.leave();
    stands(&rt, &sight.wrong, 3);
}

/// An instance has settled once each rank has posted, and no sooner.
#[test]
fn an_instance_settles_by_all_posts(rt: HostRuntime) {
    let sight = new_sight(2);
    let first = Instance { comm: 1, number: 0 };
    let second = Instance { comm: 1, number: 1 };
    for (posts, one, two) in [(0, false, false), (1, false, false), (2, true, false)] {
        sight.posts[1].store(posts, Ordering::SeqCst);
        assert!(&rt; sight.has_settled(first) == one && sight.has_settled(second) == two);
    }
    assert!(&rt; !sight.has_settled(Instance { comm: 0, number: 0 }));
    assert!(&rt;
        !sight.has_settled(Instance {
            comm: COMMS,
            number: 0
        })
    );
}

/// Ranks that post and sleep, two of them often, many of them now and then, on several
/// communicators: each sleeps until what it waits for has settled, and one plays at a time.
#[test]
fn ranks_sleep_until_their_instances_settle(rt: HostRuntime) -> Result<(), Fail> {
    for (ranks, rounds) in [(1, 3), (2, 500), (3, 300), (8, 60), (64, 6), (256, 2)] {
        let stage = Stage::new(rt.alloc(), ranks as usize, COMMS as usize, false)?;
        let sight = new_sight(ranks);
        play_all(&rt, &stage, &sight, Plan::Rounds(rounds));
        stands(&rt, &sight.begun, ranks);
    }
    Ok(())
}

/// Ranks that wait for what never settles: the last that is awake is told so, and as it ends, the
/// next.
#[test]
fn ranks_that_wait_in_vain_are_told_so(rt: HostRuntime) -> Result<(), Fail> {
    for ranks in [1, 2, 3, 8, 64, 256] {
        let stage = Stage::new(rt.alloc(), ranks as usize, COMMS as usize, false)?;
        let sight = new_sight(ranks);
        play_all(&rt, &stage, &sight, Plan::InVain);
        stands(&rt, &sight.told, ranks);
    }
    Ok(())
}

/// No rank begins where the run is given up, whether one plays at a time or all.
#[test]
fn ranks_go_home_where_a_run_is_given_up(rt: HostRuntime) -> Result<(), Fail> {
    for (ranks, open) in [(1, false), (1, true), (256, false), (256, true)] {
        let stage = Stage::new(rt.alloc(), ranks as usize, COMMS as usize, open)?;
        let sight = new_sight(ranks);
        play_all(&rt, &stage, &sight, Plan::GoHome);
    }
    Ok(())
}

/// A rank that there is not goes home at once, whether one plays at a time or all.
#[test]
fn a_rank_that_there_is_not_goes_home(rt: HostRuntime) -> Result<(), Fail> {
    for open in [false, true] {
        let stage = Stage::new(rt.alloc(), 2, 1, open)?;
        let sight = new_sight(2);
        go_home(&rt, &stage, &sight, 2);
        stands(&rt, &sight.home, 1);
        assert!(&rt; stage.release(&rt, true).is_ok());
        go_home(&rt, &stage, &sight, usize::MAX);
        stands(&rt, &sight.home, 2);
    }
    Ok(())
}

/// The ranks of an open stage begin at its start, and each goes on while another has not ended.
fn play_open<R: Wait>(rt: &R, stage: &Stage, sight: &Sight, rank: usize) {
    let Ok(role) = stage.begin(rt, rank) else {
        return;
    };
    add_one(&sight.begun);
    let it = Instance { comm: 0, number: 0 };
    for _ in 0..LOOKS {
        if sight.begun.load(Ordering::SeqCst) >= sight.ranks {
            break;
        }
        sight.expect(stage.sleep(rt, &role, it));
    }
    let aside = stage.step_aside(rt, &role);
    stage.step_back(rt, aside);
    sight.expect(sight.begun.load(Ordering::SeqCst) == sight.ranks);
    stage.settle(rt, 0);
    stage.end(rt, role);
    add_one(&sight.ended);
}

/// On an open stage all play, and nobody sleeps.
#[test]
fn all_ranks_play_on_an_open_stage(rt: HostRuntime) -> Result<(), Fail> {
    for ranks in [1, 2, 256] {
        let stage = Stage::new(rt.alloc(), ranks as usize, 1, true)?;
        let sight = new_sight(ranks);
        play_all_open(&rt, &stage, &sight);
    }
    Ok(())
}

fn play_all_open<R: Threads + Wait + Sync + Abort>(rt: &R, stage: &Stage, sight: &Sight) {
    thread::scope(thread::scope_env(), rt, |scope| {
        for rank in 0..sight.ranks as usize {
            let refused = scope
                .spawn(move || play_open(rt, stage, sight, rank))
                .is_err();
            assert!(rt; !refused);
        }
        linger();
        stands(rt, &sight.begun, 0);
        assert!(rt; stage.release(rt, true).is_ok());
        await_count(rt, &sight.ended, sight.ranks);
    });
    stands(rt, &sight.wrong, 0);
}

/// What the others do while rank 0 has stepped aside.
#[derive(Clone, Copy)]
enum Meanwhile {
    /// They begin and end.
    Play,
    /// They sleep, so nobody plays, until rank 0, which is still aside, settles their instance.
    Sleep,
}

/// It sleeps until the instance settles, as all of these do in the end.
fn await_settled<R: Wait>(rt: &R, stage: &Stage, sight: &Sight, role: &Role, it: Instance) {
    sight.leave();
    sight.expect(stage.sleep(rt, role, it));
    sight.enter();
}

/// A count comes to a number. That it does not is seen, after too many looks.
fn look_for(sight: &Sight, count: &AtomicU64, wanted: u64) {
    for _ in 0..LOOKS {
        if count.load(Ordering::SeqCst) >= wanted {
            return;
        }
        thread::yield_now();
    }
    sight.expect(false);
}

/// Rank 0 steps aside until all others have ended, so they play meanwhile.
fn step_aside_for_others<R: Wait>(rt: &R, stage: &Stage, sight: &Sight, meanwhile: Meanwhile) {
    let Some(role) = sight.begin(rt, stage, 0) else {
        return;
    };
    sight.leave();
    let aside = stage.step_aside(rt, &role);
    match meanwhile {
        Meanwhile::Play => {}
        Meanwhile::Sleep => {
            look_for(sight, &sight.begun, sight.ranks);
            linger();
            stage.settle(rt, 0);
        }
    }
    look_for(sight, &sight.ended, sight.ranks.saturating_sub(1));
    stage.step_back(rt, aside);
    sight.enter();
    sight.end(rt, stage, role);
}

fn play_meanwhile<R: Wait>(
    rt: &R,
    stage: &Stage,
    sight: &Sight,
    rank: usize,
    meanwhile: Meanwhile,
) {
    let Some(role) = sight.begin(rt, stage, rank) else {
        return;
    };
    let it = Instance { comm: 0, number: 0 };
    match meanwhile {
        Meanwhile::Play => {}
        Meanwhile::Sleep => await_settled(rt, stage, sight, &role, it),
    }
    sight.end(rt, stage, role);
}

fn aside<R: Threads + Wait + Sync + Abort>(
    rt: &R,
    stage: &Stage,
    sight: &Sight,
    meanwhile: Meanwhile,
) {
    thread::scope(thread::scope_env(), rt, |scope| {
        let first = scope
            .spawn(move || step_aside_for_others(rt, stage, sight, meanwhile))
            .is_err();
        assert!(rt; !first);
        for rank in 1..sight.ranks as usize {
            let refused = scope
                .spawn(move || play_meanwhile(rt, stage, sight, rank, meanwhile))
                .is_err();
            assert!(rt; !refused);
        }
        assert!(rt; stage.release(rt, true).is_ok());
        await_count(rt, &sight.ended, sight.ranks);
    });
    stands(rt, &sight.wrong, 0);
}

/// Others play while a rank has stepped aside, and it calls them where it settles what they sleep
/// for: they have ended before it steps back.
#[test]
fn a_rank_that_steps_aside_makes_room(rt: HostRuntime) -> Result<(), Fail> {
    for (ranks, meanwhile) in [(2, Meanwhile::Play), (3, Meanwhile::Sleep)] {
        let stage = Stage::new(rt.alloc(), ranks as usize, 1, false)?;
        let sight = new_sight(ranks);
        aside(&rt, &stage, &sight, meanwhile);
    }
    Ok(())
}

/// For what the others wait while one rank keeps its place.
#[derive(Clone, Copy)]
enum Late {
    /// To begin.
    Begin,
    /// For an instance to settle.
    Settle,
    /// To come back, having stepped aside.
    Back,
}

impl Late {
    /// Who keeps its place: the first, so that nobody else begins, or the last to begin.
    fn keeper(self, ranks: u64) -> usize {
        match self {
            Late::Begin => 0,
            Late::Settle | Late::Back => ranks.saturating_sub(1) as usize,
        }
    }
}

/// One rank keeps its place for a second, and then settles what the others may wait for.
fn play_late<R: Wait + Clock>(rt: &R, stage: &Stage, sight: &Sight, rank: usize, late: Late) {
    let Some(role) = sight.begin(rt, stage, rank) else {
        return;
    };
    let it = Instance { comm: 0, number: 0 };
    if rank == late.keeper(sight.ranks) {
        thread::sleep(rt, Duration::from_millis(1000));
        stage.settle(rt, 0);
    } else {
        match late {
            Late::Begin => {}
            Late::Settle => await_settled(rt, stage, sight, &role, it),
            Late::Back => sight.compute(rt, stage, &role),
        }
    }
    sight.end(rt, stage, role);
}

/// Ranks that wait take no processor, whether to begin, for an instance or to come back: 31 wait
/// for a second, and all together use less than half a second of processor time.
#[test]
fn ranks_that_wait_take_no_processor(rt: HostRuntime) -> Result<(), Fail> {
    for (late, what) in [
        (Late::Begin, "to begin"),
        (Late::Settle, "for an instance"),
        (Late::Back, "to come back"),
    ] {
        let before = rt.process_cpu_time()?;
        let stage = Stage::new(rt.alloc(), 32, 1, false)?;
        let sight = new_sight(32);
        play_unseen(&rt, &stage, &sight, Unseen::Late(late));
        drop(sight);
        drop(stage);
        let used = rt.process_cpu_time()?.saturating_sub(before).as_millis();
        assert!(&rt; used < 500, "{used} ms while ranks wait {what}");
    }
    Ok(())
}

/// How often two ranks take turns beside ranks that sleep.
const TURNS: u64 = 2000;

/// How much processor time those that sleep may take, all together, in microseconds. It is ten
/// times what they take on a busy machine.
const SLEEP_MICROS: u64 = 50_000;

/// The processor time that this thread has taken, in microseconds. That it is not told is seen.
fn own_micros<R: CpuClock>(rt: &R, sight: &Sight) -> u64 {
    match rt.thread_cpu_time() {
        Ok(time) => u64::try_from(time.as_micros()).unwrap_or(u64::MAX),
        Err(_) => {
            sight.expect(false);
            0
        }
    }
}

/// Rank 0 settles what rank 1 sleeps for, and sleeps for what rank 1 settles. Before each of its
/// turns the stage is still for a moment: who was woken in vain has time to lie down again.
fn lead<R: Wait + Clock>(rt: &R, stage: &Stage, sight: &Sight, role: &Role) {
    for number in 0..TURNS {
        thread::sleep(rt, Duration::from_micros(200));
        stage.settle(rt, 0);
        await_settled(rt, stage, sight, role, Instance { comm: 1, number });
    }
    stage.settle(rt, 2);
}

/// Rank 1.
fn follow<R: Wait>(rt: &R, stage: &Stage, sight: &Sight, role: &Role) {
    for number in 0..TURNS {
        await_settled(rt, stage, sight, role, Instance { comm: 0, number });
        stage.settle(rt, 1);
    }
}

/// Any other rank sleeps until those two are done, and counts the processor time that this takes.
fn sleep_beside<R: Wait + CpuClock>(rt: &R, stage: &Stage, sight: &Sight, role: &Role) {
    let before = own_micros(rt, sight);
    await_settled(rt, stage, sight, role, Instance { comm: 2, number: 0 });
    let used = own_micros(rt, sight).saturating_sub(before);
    sight.micros.fetch_add(used, Ordering::SeqCst);
}

fn play_beside<R: Wait + Clock + CpuClock>(rt: &R, stage: &Stage, sight: &Sight, rank: usize) {
    let Some(role) = sight.begin(rt, stage, rank) else {
        return;
    };
    match rank {
        0 => lead(rt, stage, sight, &role),
        1 => follow(rt, stage, sight, &role),
        _ => sleep_beside(rt, stage, sight, &role),
    }
    sight.end(rt, stage, role);
}

/// What the ranks do while nobody looks at their counts, which would take time.
#[derive(Clone, Copy)]
enum Unseen {
    /// All wait for one rank.
    Late(Late),
    /// All but two sleep, while those take turns.
    Beside,
}

fn play_one_unseen<R: Wait + Clock + CpuClock>(
    rt: &R,
    stage: &Stage,
    sight: &Sight,
    rank: usize,
    unseen: Unseen,
) {
    match unseen {
        Unseen::Late(late) => play_late(rt, stage, sight, rank, late),
        Unseen::Beside => play_beside(rt, stage, sight, rank),
    }
}

/// A thread for each rank.
fn play_unseen<R: Threads + Wait + Clock + CpuClock + Sync + Abort>(
    rt: &R,
    stage: &Stage,
    sight: &Sight,
    unseen: Unseen,
) {
    thread::scope(thread::scope_env(), rt, |scope| {
        for rank in 0..sight.ranks as usize {
            let refused = scope
                .spawn(move || play_one_unseen(rt, stage, sight, rank, unseen))
                .is_err();
            assert!(rt; !refused);
        }
        assert!(rt; stage.release(rt, true).is_ok());
    });
    stands(rt, &sight.ended, sight.ranks);
    stands(rt, &sight.wrong, 0);
}

/// While two ranks take turns the others sleep in peace: they do not look for themselves, and of
/// the bells that of the called rank alone is rung. Else each of them would run at each turn.
#[test]
fn only_who_is_called_wakes(rt: HostRuntime) -> Result<(), Fail> {
    let stage = Stage::new(rt.alloc(), 64, COMMS as usize, false)?;
    let sight = new_sight(64);
    play_unseen(&rt, &stage, &sight, Unseen::Beside);
    let used = sight.micros.load(Ordering::SeqCst);
    assert!(&rt;
        used < SLEEP_MICROS,
        "{used} microseconds while ranks sleep"
    );
    drop(sight);
    drop(stage);
    Ok(())
}
