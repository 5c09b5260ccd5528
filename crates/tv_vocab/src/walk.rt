//! A depth-first walk along what definitions mention: whether one rests on itself.

ghost use Rattle.std.specs.Prelude.{◌≡◌, ◌≢◌, ◌+◌, ◌<◌, ◌≤◌, ◌∷◌, ◌++◌, [], true, false, map, length};
ghost use Rattle.std.specs.Prelude.{reverse, IfOk, Option, Some, None};
ghost use Rattle.std.specs.Bool.{OnTrue, OnFalse};
ghost use Rattle.tv_vocab.specs.Cycles.{HasCycle, has_cycle};
ghost use Rattle.tv_vocab.specs.Walk.{next_mention};
ghost use Rattle.std.proofs.Math.ListN.{set};

use std::alloc::{AllocError, Global};

/// What a depth-first walk knows of a predicate: nothing yet, that it stands on the path, or
/// that its definition doesn't rest on itself.
#[derive(Clone, Copy)]
pub enum Mark {
    Unseen,
    Open,
    Done,
}

/// A predicate on the path, and how many of the mentions in its definition were gone through.
#[derive(Clone, Copy)]
pub struct Step {
    pub pred: usize,
    pub seen: usize,
}

/// A depth-first walk along what definitions mention.
#[derive(Drop)]
pub struct Walk {
    pub marks: Vec<Mark>,
    pub path: Vec<Step>,
}

impl Walk {
    ghost use Rattle.tv_vocab.specs.Walk.{AllUnseen, AreMarks, LeadsTo, IsPath, KeepsSeen, work, mark_at};
    ghost use Rattle.tv_vocab.specs.declared.walk.Mark.TheVariants.{Unseen};

    #[tactic(auto, using(crate::proofs::WalkLaws::unseen_push))]
    fn new(alloc: Global, count: usize) -> Result<Walk, AllocError>
        ensures count { IfOk result (λ walk. length walk.marks.items ≡ count) }
        ensures unseen { IfOk result (λ walk. AllUnseen walk.marks.items) }
        ensures path { IfOk result (λ walk. walk.path.items ≡ []) }
    {
        let mut marks = Vec::new(alloc);
        for _ in 0..count {
            marks.push(Mark::Unseen)?;
        }
        Ok(Walk {
            marks,
            path: Vec::new(alloc),
        })
    }

    // A number that no predicate has counts as done.
    fn mark(&self, pred: usize) -> Mark
        ensures { result ≡ mark_at self.now.marks.items pred }
    {
        if pred < self.marks.len() {
            self.marks[pred]
        } else {
            Mark::Done
        }
    }

    fn put_mark(&mut self, pred: usize, mark: Mark)
        ensures marks { self.new.marks.items ≡ set self.old.marks.items pred mark }
        ensures path { self.new.path.items ≡ self.old.path.items }
    {
        if pred < self.marks.len() {
            self.marks[pred] = mark;
        }
    }

    // Comes to a predicate from the end of the path: whether that closes a cycle.
    fn come_to(&mut self, uses: &[Vec<u32>], pred: usize) -> Result<bool, AllocError>
        requires marks { AreMarks (map (λ one. one.items) uses.now) self.old.marks.items
            (reverse self.old.path.items) }
        requires leads { LeadsTo (map (λ one. one.items) uses.now) self.old.marks.items
            (reverse self.old.path.items) pred }
        ensures cycle { IfOk result (λ found. OnTrue found (HasCycle (map (λ one. one.items) uses.now))) }
        ensures marks { IfOk result (λ found. OnFalse found
            (AreMarks (map (λ one. one.items) uses.now) self.new.marks.items (reverse self.new.path.items))) }
        ensures path { IfOk result (λ found. OnFalse found
            (IsPath (map (λ one. one.items) uses.now) self.new.marks.items (reverse self.new.path.items))) }
        ensures seen { IfOk result (λ found. OnFalse found (mark_at self.new.marks.items pred ≢ Unseen)) }
        ensures kept { IfOk result (λ found. KeepsSeen self.old.marks.items self.new.marks.items) }
        ensures work { IfOk result
            (λ found. work (map (λ one. one.items) uses.now) self.new.marks.items self.new.path.items
            ≤ work (map (λ one. one.items) uses.now) self.old.marks.items self.old.path.items) }
    {
        match self.mark(pred) {
            Mark::Done => Ok(false),
            Mark::Open => Ok(true),
            Mark::Unseen => {
                self.path.push(Step { pred, seen: 0 })?;
                self.put_mark(pred, Mark::Open);
                Ok(false)
            }
        }
    }

    // Goes on with a step that was taken off the end of the path: whether that closes a cycle.
    fn advance(&mut self, uses: &[Vec<u32>], step: Step) -> Result<bool, AllocError>
        requires marks { AreMarks (map (λ one. one.items) uses.now) self.old.marks.items
            (step ∷ reverse self.old.path.items) }
        requires path { IsPath (map (λ one. one.items) uses.now) self.old.marks.items
            (step ∷ reverse self.old.path.items) }
        ensures cycle { IfOk result (λ found. OnTrue found (HasCycle (map (λ one. one.items) uses.now))) }
        ensures marks { IfOk result (λ found. OnFalse found
            (AreMarks (map (λ one. one.items) uses.now) self.new.marks.items (reverse self.new.path.items))) }
        ensures path { IfOk result (λ found. OnFalse found
            (IsPath (map (λ one. one.items) uses.now) self.new.marks.items (reverse self.new.path.items))) }
        ensures kept { IfOk result (λ found. KeepsSeen self.old.marks.items self.new.marks.items) }
        ensures work { IfOk result
            (λ found. work (map (λ one. one.items) uses.now) self.new.marks.items self.new.path.items < work
            (map (λ one. one.items) uses.now) self.old.marks.items (self.old.path.items ++ step ∷ [])) }
    {
        match next_mention(uses, step) {
            None => {
                self.put_mark(step.pred, Mark::Done);
                Ok(false)
            }
            Some((pred, seen)) => {
                self.path.push(seen)?;
                self.come_to(uses, pred)
            }
        }
    }

    // Goes on until the path is at its end: whether a cycle is found.
    fn finish(&mut self, uses: &[Vec<u32>]) -> Result<bool, AllocError>
        requires marks { AreMarks (map (λ one. one.items) uses.now) self.old.marks.items
            (reverse self.old.path.items) }
        requires path { IsPath (map (λ one. one.items) uses.now) self.old.marks.items
            (reverse self.old.path.items) }
        ensures cycle { IfOk result (λ found. OnTrue found (HasCycle (map (λ one. one.items) uses.now))) }
        ensures marks { IfOk result
            (λ found. OnFalse found (AreMarks (map (λ one. one.items) uses.now) self.new.marks.items [])) }
        ensures path { IfOk result (λ found. OnFalse found (self.new.path.items ≡ [])) }
        ensures kept { IfOk result (λ found. KeepsSeen self.old.marks.items self.new.marks.items) }
    {
        while let Some(step) = self.path.pop() {
            if self.advance(uses, step)? {
                return Ok(true);
            }
        }
        Ok(false)
    }

    // Walks from a predicate on: whether a cycle is found.
    fn visit(&mut self, uses: &[Vec<u32>], pred: usize) -> Result<bool, AllocError>
        requires marks { AreMarks (map (λ one. one.items) uses.now) self.old.marks.items [] }
        requires path { self.old.path.items ≡ [] }
        ensures cycle { IfOk result (λ found. OnTrue found (HasCycle (map (λ one. one.items) uses.now))) }
        ensures marks { IfOk result
            (λ found. OnFalse found (AreMarks (map (λ one. one.items) uses.now) self.new.marks.items [])) }
        ensures path { IfOk result (λ found. OnFalse found (self.new.path.items ≡ [])) }
        ensures seen { IfOk result (λ found. OnFalse found (mark_at self.new.marks.items pred ≢ Unseen)) }
        ensures kept { IfOk result (λ found. KeepsSeen self.old.marks.items self.new.marks.items) }
    {
        if self.come_to(uses, pred)? {
            return Ok(true);
        }
        self.finish(uses)
    }
}

// The next mention of a step, and the step with this mention seen.
fn next_mention(uses: &[Vec<u32>], step: Step) -> Option<(usize, Step)>
    ensures { result ≡ next_mention (map (λ one. one.items) uses.now) step }
{
    if step.pred >= uses.len() {
        return None;
    }
    let mentioned = &uses[step.pred];
    if step.seen >= mentioned.len() {
        return None;
    }
    let seen = Step {
        pred: step.pred,
        seen: step.seen + 1,
    };
    Some((mentioned[step.seen] as usize, seen))
}

/// Whether some definition rests on itself, directly or through others.
pub fn finds_cycle(alloc: Global, uses: &[Vec<u32>]) -> Result<bool, AllocError>
    ensures { IfOk result (λ found. found ≡ has_cycle (map (λ one. one.items) uses.now)) }
{
    let mut walk = Walk::new(alloc, uses.len())?;
    for pred in 0..uses.len() {
        if walk.visit(uses, pred)? {
            return Ok(true);
        }
    }
    Ok(false)
}
