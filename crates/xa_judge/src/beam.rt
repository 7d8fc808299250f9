//! A search for one order, which keeps only some configurations at a time.
ghost use Rattle.std.specs.Prelude.{◌≡◌, ◌+◌, ◌^◌, ◌<◌, length, IfOk};
ghost use Rattle.xa_judge.specs.Told.{IsReport};

use crate::best::best_of;
use crate::closing::observe_all;
use crate::configuration::Configuration;
use crate::effect::{Effect, all_effects};
use crate::event::Event;
use crate::fingerprint_index::FingerprintIndex;
use crate::foresight::{Fit, Foresight};
use crate::known::add;
use crate::progress::{Progress, tell};
use crate::room::has_room;
use crate::shared_lists::SharedLists;
use std::alloc::Global;
use std::mem;
use xa_xid::{NoMemory, SessionNo};

/// How many configurations may be looked at before an event for each one that may be kept. Often more than one effect
/// has to come before that of the call that returns. Looking at more takes longer.
const SIGHT: usize = 8;

/// Some of the configurations before an event. In each of them every call that took effect was answered with
/// what it returns, if that is known.
#[derive(Drop)]
pub struct Beam<'a> {
    /// The events.
    events: &'a [Event],
    /// What later events say of open calls.
    foresight: Foresight<'a>,
    /// The configurations. Their order matters: of those with equally many stuck calls the earlier ones are kept.
    pub known: Vec<Configuration>,
    /// The index in which configurations are looked up while `known` grows.
    index: FingerprintIndex,
    /// Every effect that there can be.
    effects: Vec<Effect>,
    /// The greatest number of configurations that is kept after an event.
    width: usize,
    /// How many more effects may be tried. `add_effect` and `add_both` say which are counted.
    left: u64,
    alloc: Global,
}

/// The configuration to which the effect leads from `one`; None if the effect doesn't fit there (`Fit::Not`).
fn after(
    foresight: &Foresight,
    lists: &mut SharedLists,
    one: &Configuration,
    effect: &Effect,
) -> Result<Option<Configuration>, NoMemory> {
    if foresight.fit(one, effect)? == Fit::Not {
        return Ok(None);
    }
    one.effected(effect.session, effect.act, lists)
}

impl<'a> Beam<'a> {
    /// Begins with these configurations, before all events. At most `width` are kept, and about `left` effects
    /// may be tried.
    ///
    /// May return `NoMemory`.
    pub fn new(
        alloc: Global,
        events: &'a [Event],
        known: Vec<Configuration>,
        width: usize,
        left: u64,
    ) -> Result<Beam<'a>, NoMemory>
        ensures { IfOk result (λ beam. beam.known ≡ known) }
    {
        Ok(Beam {
            events,
            foresight: Foresight::new(alloc, events)?,
            known,
            index: FingerprintIndex::new(alloc),
            effects: all_effects(alloc)?,
            width,
            left,
            alloc,
        })
    }

    /// The configuration after every effect that fits and doesn't change the server (`Fit::Quiet`): such an effect
    /// never comes too early. None if one of them can't take effect; that is never the case, as `fit` says `Quiet`
    /// only if it can.
    fn quieted(&mut self, one: Configuration) -> Result<Option<Configuration>, NoMemory> {
        let mut here = one;
        for effect in self.effects.iter() {
            if self.foresight.fit(&here, effect)? == Fit::Quiet {
                let lists = &mut self.index.lists;
                here = match here.effected_among(effect.session, effect.act, lists)? {
                    None => return Ok(None),
                    Some(next) => next,
                };
            }
        }
        Ok(Some(here))
    }

    /// Adds the configuration `found`, if there is one, after its quiet effects (`quieted`), unless one in `known` is
    /// then known to be the same.
    fn add(&mut self, found: Option<Configuration>) -> Result<(), NoMemory> {
        let Some(one) = found else {
            return Ok(());
        };
        match self.quieted(one)? {
            None => Ok(()),
            Some(quiet) => add(&mut self.known, &mut self.index, quiet),
        }
    }

    /// The configuration to which all effects of other sessions that fit, and then the effect `own`, lead from `one`;
    /// None if `own` doesn't fit after them. They come in the order of `effects`, each if it fits after those before.
    fn after_all(
        &mut self,
        one: &Configuration,
        own: &Effect,
    ) -> Result<Option<Configuration>, NoMemory> {
        let mut here = one.copy()?;
        for effect in self.effects.iter() {
            // An effect that doesn't fit isn't tried: it can't come about, or its call returns another answer later.
            if effect.session != own.session && self.foresight.fit(&here, effect)? != Fit::Not {
                let lists = &mut self.index.lists;
                here = match here.effected_among(effect.session, effect.act, lists)? {
                    // Never None: an effect that fits can take effect.
                    None => return Ok(None),
                    Some(next) => next,
                };
            }
        }
        if self.foresight.fit(&here, own)? == Fit::Not {
            return Ok(None);
        }
        here.effected_among(own.session, own.act, &mut self.index.lists)
    }

    /// Adds what the effect `own` leads to from the configuration `one`: alone, and after all effects of other sessions
    /// that fit (`after_all`). Both count as tried, also where `own` doesn't fit.
    fn add_both(&mut self, one: &Configuration, own: &Effect) -> Result<(), NoMemory> {
        self.left = self.left.saturating_sub(2);
        let alone = after(&self.foresight, &mut self.index.lists, one, own)?;
        self.add(alone)?;
        let behind = self.after_all(one, own)?;
        self.add(behind)
    }

    /// Adds what the effect leads to from the configuration at this index of `known`, if it fits there.
    fn add_effect(&mut self, index: usize, effect: &Effect) -> Result<(), NoMemory> {
        let found = match self.known.get(index) {
            None => None,
            Some(one) => after(&self.foresight, &mut self.index.lists, one, effect)?,
        };
        // Only effects that fit are costly, since a configuration is copied. So only they are counted.
        if found.is_some() {
            self.left = self.left.saturating_sub(1);
        }
        self.add(found)
    }

    /// Adds what each effect that fits leads to from the configuration at this index of `known`, unless `session`, the
    /// one of the next event, is answered there.
    fn add_effects(&mut self, index: usize, session: SessionNo) -> Result<(), NoMemory> {
        if let Some(one) = self.known.get(index)
            && one.is_answered(session)
        {
            // Nothing more has to take effect there before the event.
            return Ok(());
        }
        for at in 0..self.effects.len() {
            if let Some(effect) = self.effects.get(at).copied() {
                self.add_effect(index, &effect)?;
            }
        }
        Ok(())
    }

    /// Whether more configurations may be looked at: effects are left to be tried, and the list and memory have room.
    fn looks_on(&self) -> bool {
        let count = self.known.len();
        self.left > 0
            && count < self.width.saturating_mul(SIGHT)
            && has_room(count, self.index.records())
    }

    /// Adds what effects that fit lead to from each configuration in the order of the list, also from those that are
    /// added, as long as `looks_on` allows more. One in which `session`, that of the next event, is answered leads to
    /// no others.
    fn look_on(&mut self, session: SessionNo) -> Result<(), NoMemory> {
        for index in 0..self.width.saturating_mul(SIGHT) {
            // The list grows while it is gone through: what an effect leads to may lead on by another.
            if index >= self.known.len() || !self.looks_on() {
                return Ok(());
            }
            self.add_effects(index, session)?;
        }
        Ok(())
    }

    /// Makes `known` the configurations in which an event of the session is to be tried. Each one before gives at
    /// most two: after the session's own request alone, and after all effects of other sessions that fit and then the
    /// request; or itself, if it has no request to take effect. Then come those that still wait for the request, and
    /// what `look_on` adds.
    fn prepare(&mut self, session: SessionNo) -> Result<(), NoMemory> {
        let own = Effect::of(session);
        let before = mem::replace(&mut self.known, Vec::new(self.alloc));
        let mut open = Vec::new(self.alloc);
        // `known` begins anew, so the places in it do too.
        self.index.clear();
        for one in before {
            if one.can_take_effect(own.session, own.act) {
                self.add_both(&one, &own)?;
                open.push(one)?;
            } else {
                // Here the request took effect before, or there is none.
                self.known.push(one)?;
            }
        }
        // Those that wait for the request come last. A return can't be seen in them, but effects lead on from them.
        for one in open {
            self.known.push(one)?;
        }
        self.look_on(session)
    }

    /// Whether in some configuration the session's client is gone with a call that may still take effect. Until that
    /// call has, or a `DISCONNECT` in place of it, the session can't be seen to call again.
    fn is_unheard(&self, session: SessionNo) -> bool {
        self.known.iter().any(|one| one.has_unheard(session))
    }

    /// The session whose open request can't take effect after the event any more; None if there is none.
    fn aim(&self, event: &Event) -> Option<SessionNo> {
        match event {
            Event::Return(session, _) => Some(*session),
            // The open call took effect before the event, or never will.
            Event::Unknown(session) => Some(*session),
            Event::Call(session, _) => {
                // A client that is gone with an open call is seen to call again only after that call, or a
                // `DISCONNECT` in its place, has taken effect (`is_unheard`).
                if self.is_unheard(*session) {
                    Some(*session)
                } else {
                    None
                }
            }
            // What the session has called for may take effect after the event too.
            Event::Lost(_) => None,
        }
    }

    /// Keeps the best of these configurations (`best_of`), at most `width`, each after its quiet effects. Of those
    /// that are known to be the same then, one is kept.
    fn keep(&mut self, known: Vec<Configuration>) -> Result<(), NoMemory> {
        self.index.clear();
        for one in known {
            self.add(Some(one))?;
        }
        let all = mem::replace(&mut self.known, Vec::new(self.alloc));
        self.known = best_of(self.alloc, all, &self.foresight, self.width)?;
        Ok(())
    }

    /// Goes over the event at this place: first lets take effect what may have to come before the event, then drops the
    /// configurations in which the event can't be seen, and keeps the best of the others. If none is left, the search
    /// has failed, which doesn't mean that there is no order. Does nothing if there is no event at this place.
    ///
    /// May return `NoMemory`.
    pub fn see(&mut self, place: usize) -> Result<(), NoMemory> {
        let Some(event) = self.events.get(place) else {
            return Ok(());
        };
        if let Some(session) = self.aim(event) {
            self.prepare(session)?;
        }
        let mut ready = mem::replace(&mut self.known, Vec::new(self.alloc));
        // `observe_all` takes them from the last one on. Their order is to stay, since `keep` goes by it.
        ready.reverse();
        let seen = observe_all(self.alloc, ready, &mut self.index, event)?;
        // Before `keep`, which goes by what open calls return: if the event is a call, that call is open too.
        self.foresight.follow(place);
        self.keep(seen)
    }

    /// Tells `progress` that the event at this place of `events`, those of the search, is seen next. `before` others
    /// come before all of these.
    pub fn tell<P: Progress>(&self, before: usize, events: &[Event], place: usize, progress: &mut P)
        requires within { place < length events.now }
        requires fits { before + length events.now < 2 ^ 64 }
        requires some { 0 < length self.now.known.items }
        // Proved (records, progress-searched): While one order is searched, the number that `progress` is told is
        //   that of the configurations that the search keeps.
        ensures { IsReport P.judged_gives (before + place) (before + length events.now)
            (length self.now.known.items) progress.old progress.new }
    {
        tell(progress, before, events, place, self.known.as_slice());
    }

    /// Returns how many effects may still be tried.
    pub fn left(&self) -> u64 {
        self.left
    }
}
