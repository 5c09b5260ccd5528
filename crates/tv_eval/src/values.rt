//! The value of a formula, part by part.

ghost use Rattle.std.specs.Prelude.{ℕ, ◌≡◌, ◌≢◌, ◌<◌, ◌≤◌, ◌+◌, ◌*◌, ◌∷◌, length, false, slice_index_or};
ghost use Rattle.std.specs.List.{range_with_len};
ghost use Rattle.tv_kleene.specs.declared.K3.{K3};
ghost use Rattle.tv_kleene.specs.Kleene.{smaller_of};
ghost use Rattle.tv_model.specs.Form.{form_of, FNot, FAnd, FOr, FIff, FCond, FExists, FClosure};
ghost use Rattle.tv_model.specs.Form.{IsFree};
ghost use Rattle.tv_model.specs.Truth.{put};
ghost use Rattle.tv_row.specs.Places.{entry_in};
ghost use Rattle.tv_structure_form.specs.StructureForm.{structure_of};
ghost use Rattle.tv_eval_laws.specs.Value.{value};
ghost use Rattle.tv_eval.specs.Along.{IsWordAlong, IsWordOf, closed_values, values_along};
ghost use Rattle.tv_eval.specs.Linked.{CanTake, rest_along};
ghost use Rattle.tv_quantifiers.specs.Chains.{AreLinked, across, best, is_taken, least_part, parts_of};
ghost use Rattle.tv_quantifiers.specs.Runs.{AreFresh, under_run};
ghost use Rattle.tv_eval.specs.AssignmentForm.{assignment_of};
ghost use Rattle.tv_eval.specs.CanEvaluate.{CanEvaluate};
ghost use Rattle.tv_eval.specs.EvaluatorForm.{sizes_in};
ghost use Rattle.tv_eval.specs.Formulas.{HasRooms, nesting};
ghost use Rattle.tv_quantifiers.specs.Quantified.{quantified, turned};
ghost use Rattle.tv_eval.specs.Caps.{IsCapRow, IsCapWord};
ghost use Rattle.tv_kleene.specs.declared.K3.TheVariants.{No};
ghost use Rattle.tv_quantifiers.specs.Rows.{IsPart, IsSquare, part_at};

use crate::Assignment;
use crate::caps::{cap_row, cap_word};
use crate::evaluator::Evaluator;
use crate::kept::row_atom;
use crate::leaf_words::{
    atom_word, chunks, constant_word, is_literal, new_word, places, put_rows, same_word,
};
use crate::leaves::{atom, is_new, same};
use tv_kleene::K3;
use tv_model::{Formula, Var, free};
use tv_quantifiers::{
    Edges, Level, Link, Part, Quantifier, Relation, Shape, Variables, advance, are_few, are_linked,
    begins_long_run, begins_with, has_few, has_outer, is_slower, opened, sign_of, split,
};
use tv_row::{Row, Word};

impl<'s, 'a> Evaluator<'s, 'a> {
    /// The value of the formula in the structure. A closure takes a room out while it is filled: one
    /// inside it takes the next, and so on.
    #[cycle(values)]
    pub fn value_of(&mut self, f: &'a Formula, a: &Assignment) -> K3
        requires parts { CanEvaluate self.old.structure a.now (sizes_in self.old) (form_of f.now) }
        ensures exact { result ≡ value (structure_of self.old.structure) (assignment_of a.now)
            (form_of f.now) }
        ensures same { self.new ≡ self.old }
    {
        match f {
            Formula::Atom(pred, terms) => atom(*pred, terms, self.structure(), a),
            Formula::Not(g) => self.value_of(g, a).not(),
            _ => self.value_by_parts(f, a),
        }
    }

    /// The same, part by part: atoms, and what is negated, don't come here.
    #[cycle(values)]
    #[inline(never)]
    fn value_by_parts(&mut self, f: &'a Formula, a: &Assignment) -> K3
        requires parts { CanEvaluate self.old.structure a.now (sizes_in self.old) (form_of f.now) }
        ensures exact { result ≡ value (structure_of self.old.structure) (assignment_of a.now)
            (form_of f.now) }
        ensures same { self.new ≡ self.old }
    {
        match f {
            Formula::Zero => K3::No,
            Formula::One => K3::Yes,
            Formula::Atom(pred, terms) => atom(*pred, terms, self.structure(), a),
            Formula::IsNew(v) => is_new(self.structure(), a.at(*v)),
            Formula::Same(v, w) => same(self.structure(), a.at(*v), a.at(*w)),
            Formula::Not(g) => self.value_of(g, a).not(),
            Formula::And(g, h) => self.both(g, h, a),
            Formula::Or(g, h) => self.either(g, h, a),
            Formula::Iff(g, h) => self.alike(g, h, a),
            Formula::Cond(c, g, h) => self.choice(c, g, h, a),
            Formula::Exists(v, g) => { self.quantify(f, Quantifier::Exists, *v, g, a) }
            Formula::Forall(v, g) => { self.quantify(f, Quantifier::Forall, *v, g, a) }
            Formula::Closure {
                from,
                to,
                left,
                right,
                body,
            } => {
                let edges = Edges {
                    left: *left,
                    right: *right,
                    body,
                };
                self.closure(*from, *to, edges, a)
            }
        }
    }

    #[cycle(values)]
    fn both(&mut self, g: &'a Formula, h: &'a Formula, a: &Assignment) -> K3
        requires parts { CanEvaluate self.old.structure a.now (sizes_in self.old) (FAnd (form_of g.now)
            (form_of h.now)) }
        ensures exact { result
            ≡ value (structure_of self.old.structure) (assignment_of a.now) (FAnd (form_of g.now)
            (form_of h.now)) }
        ensures same { self.new ≡ self.old }
    {
        let first = self.value_of(g, a);
        if first == K3::No {
            return K3::No;
        }
        first.and(self.value_of(h, a))
    }

    #[cycle(values)]
    fn either(&mut self, g: &'a Formula, h: &'a Formula, a: &Assignment) -> K3
        requires parts { CanEvaluate self.old.structure a.now (sizes_in self.old) (FOr (form_of g.now)
            (form_of h.now)) }
        ensures exact { result
            ≡ value (structure_of self.old.structure) (assignment_of a.now) (FOr (form_of g.now)
            (form_of h.now)) }
        ensures same { self.new ≡ self.old }
    {
        let first = self.value_of(g, a);
        if first == K3::Yes {
            return K3::Yes;
        }
        first.or(self.value_of(h, a))
    }

    #[cycle(values)]
    fn alike(&mut self, g: &'a Formula, h: &'a Formula, a: &Assignment) -> K3
        requires parts { CanEvaluate self.old.structure a.now (sizes_in self.old) (FIff (form_of g.now)
            (form_of h.now)) }
        ensures exact { result
            ≡ value (structure_of self.old.structure) (assignment_of a.now) (FIff (form_of g.now)
            (form_of h.now)) }
        ensures same { self.new ≡ self.old }
    {
        let first = self.value_of(g, a);
        let second = self.value_of(h, a);
        first.not().or(second).and(second.not().or(first))
    }

    #[cycle(values)]
    fn choice(&mut self, c: &'a Formula, g: &'a Formula, h: &'a Formula, a: &Assignment) -> K3
        requires parts { CanEvaluate self.old.structure a.now (sizes_in self.old)
            (FCond (form_of c.now) (form_of g.now) (form_of h.now)) }
        ensures exact { result ≡ value (structure_of self.old.structure) (assignment_of a.now)
            (FCond (form_of c.now) (form_of g.now) (form_of h.now)) }
        ensures same { self.new ≡ self.old }
    {
        match self.value_of(c, a) {
            K3::Yes => self.value_of(g, a),
            K3::No => self.value_of(h, a),
            K3::Half => {
                let first = self.value_of(g, a);
                let second = self.value_of(h, a);
                K3::Half.and(first).or(K3::Half.and(second))
            }
        }
    }

    /// The value of a quantified formula: it is read where it is kept.
    #[cycle(values)]
    fn quantify(
        &mut self,
        f: &'a Formula,
        q: Quantifier,
        v: Var,
        body: &'a Formula,
        a: &Assignment,
    ) -> K3
        requires parts { CanEvaluate self.old.structure a.now (sizes_in self.old) (FExists v.0
            (form_of body.now)) }
        requires whole { form_of f.now ≡ quantified q v.0 (form_of body.now) }
        ensures exact { result
            ≡ value (structure_of self.old.structure) (assignment_of a.now) (quantified q v.0
            (form_of body.now)) }
        ensures same { self.new ≡ self.old }
    {
        let since = self.turn();
        if let Some(k) = self.kept_value(f, a) {
            return k;
        }
        let k = self.quantify_anew(q, v, body, a);
        self.offer_value(f, since, a, k);
        k
    }

    /// The value of the body under the quantifier over `v`.
    #[cycle(values)]
    fn quantify_anew(&mut self, q: Quantifier, v: Var, body: &'a Formula, a: &Assignment) -> K3
        requires parts { CanEvaluate self.old.structure a.now (sizes_in self.old) (FExists v.0
            (form_of body.now)) }
        ensures exact { result
            ≡ value (structure_of self.old.structure) (assignment_of a.now) (quantified q v.0
            (form_of body.now)) }
        ensures same { self.new ≡ self.old }
    {
        let individuals = self.size();
        if individuals > 0 && begins_long_run(body) {
            return self.run(q, v, body, a);
        }
        if individuals > 0 && individuals <= 64 {
            return self.quantify_few(q, v, body, a);
        }
        let mut found = K3::No;
        for chunk in 0..chunks(individuals) {
            let word = self.word_of(body, v, chunk, a);
            let turned = q.turned_word(word, places(individuals, chunk));
            found = found.or(turned.greatest());
            if found == K3::Yes {
                return q.turned(found);
            }
        }
        q.turned(found)
    }

    /// The same over individuals that one word has values for.
    #[cycle(values)]
    fn quantify_few(&mut self, q: Quantifier, v: Var, body: &'a Formula, a: &Assignment) -> K3
        requires parts { CanEvaluate self.old.structure a.now (sizes_in self.old) (FExists v.0
            (form_of body.now)) }
        requires some { 0 < self.old.structure.size }
        requires few { self.old.structure.size ≤ 64 }
        ensures exact { result
            ≡ value (structure_of self.old.structure) (assignment_of a.now) (quantified q v.0
            (form_of body.now)) }
        ensures same { self.new ≡ self.old }
    {
        let individuals = self.size();
        let word = self.word_of(body, v, 0, a);
        let turned = q.turned_word(word, places(individuals, 0));
        q.turned(turned.greatest())
    }

    /// The same, where many quantifiers stand one in the other: without recursion.
    #[cycle(values)]
    #[inline(never)]
    fn run(&mut self, q: Quantifier, v: Var, body: &'a Formula, a: &Assignment) -> K3
        requires parts { CanEvaluate self.old.structure a.now (sizes_in self.old) (FExists v.0
            (form_of body.now)) }
        requires some { 0 < self.old.structure.size }
        ensures exact { result
            ≡ value (structure_of self.old.structure) (assignment_of a.now) (quantified q v.0
            (form_of body.now)) }
        ensures same { self.new ≡ self.old }
    {
        let (mut levels, part) = opened(q, v, body);
        let sign = sign_of(part);
        let chain = levels.as_slice();
        if chain.len() > 0 && are_linked(part, sign, chain) {
            return self.link_by_link(part, sign, chain, a);
        }
        self.one_by_one(part, levels.as_mut_slice(), a)
    }

    /// The value of the run over the formula: one list of individuals after the other.
    #[cycle(values)]
    #[inline(never)]
    fn one_by_one(&mut self, part: &'a Formula, levels: &mut [Level], a: &Assignment) -> K3
        requires parts { CanEvaluate self.old.structure a.now (sizes_in self.old) (under_run levels.old
            (form_of part.now)) }
        requires some { 0 < self.old.structure.size }
        requires fresh { AreFresh levels.old }
        ensures exact { result
            ≡ value (structure_of self.old.structure) (assignment_of a.now) (under_run levels.old
            (form_of part.now)) }
        ensures same { self.new ≡ self.old }
    {
        let individuals = self.size();
        loop {
            let here = a.at_hand(levels);
            let value = self.value_of(part, &here);
            if let Some(whole) = advance(levels, value, individuals) {
                return whole;
            }
        }
    }

    /// The value of the run over the formula, whose parts hang together like a chain: from the innermost
    /// quantifier outwards, a row of values after the other.
    #[cycle(values)]
    #[inline(never)]
    fn link_by_link(
        &mut self,
        part: &'a Formula,
        sign: Quantifier,
        levels: &[Level],
        a: &Assignment,
    ) -> K3
        requires parts { CanEvaluate self.old.structure a.now (sizes_in self.old) (under_run levels.now
            (form_of part.now)) }
        requires some { 0 < self.old.structure.size }
        requires levels { 0 < length levels.now }
        requires linked { AreLinked levels.now (parts_of sign (form_of part.now)) }
        ensures exact { result
            ≡ value (structure_of self.old.structure) (assignment_of a.now) (under_run levels.now
            (form_of part.now)) }
        ensures same { self.new ≡ self.old }
    {
        let individuals = self.size();
        let mut row = Row::of(individuals, K3::Yes);
        let mut k = levels.len() - 1;
        while k > 0 {
            let outer = Link::at(levels, k - 1).level;
            let link = Link::at(levels, k);
            row = self.linked_row(part, sign, outer, link, &row, a);
            k -= 1;
        }
        let first = Link::at(levels, 0);
        sign.turned(self.linked_value(part, sign, first, &row, a))
    }

    /// The values of what is left of a run behind `outer`, for all individuals, put for its variable: `row`
    /// has those of what is left behind the link.
    #[cycle(values)]
    #[inline(never)]
    fn linked_row(
        &mut self,
        part: &'a Formula,
        sign: Quantifier,
        outer: Level,
        link: Link<'_>,
        row: &Row,
        a: &Assignment,
    ) -> Row
        requires parts { CanTake self.old.structure a.now (sizes_in self.old)
            (is_taken link.is_first link.level.var.0 link.inner.now)
            (λ f. FExists outer.var.0 (FExists link.level.var.0 f)) (parts_of sign (form_of part.now)) }
        requires var { outer.var.0 < 32 }
        requires inner { link.is_first ≡ false }
        requires linked { AreLinked (outer ∷ link.level ∷ link.inner.now) (parts_of sign (form_of part.now)) }
        requires row { row.now ≡ rest_along self.old.structure
            (assignment_of a.now) sign link.level.var.0 link.inner.now
            (parts_of sign (form_of part.now)) }
        ensures exact { result ≡ rest_along self.old.structure (assignment_of a.now) sign outer.var.0
            (link.entry.level ∷ link.entry.inner.now) (parts_of sign (form_of part.now)) }
        ensures same { self.new ≡ self.old }
    {
        let individuals = self.size();
        let mut values = Row::of(individuals, K3::No);
        let mut here = *a;
        for u in 0..individuals {
            here.set(outer.var, u);
            let value = self.linked_value(part, sign, link, row, &here);
            values.set(u, value);
        }
        values
    }

    /// The value of the link's quantifier over the parts that stand at it, each with the row's value.
    #[cycle(values)]
    fn linked_value(
        &mut self,
        part: &'a Formula,
        sign: Quantifier,
        link: Link<'_>,
        row: &Row,
        a: &Assignment,
    ) -> K3
        requires parts { CanTake self.old.structure a.now (sizes_in self.old)
            (is_taken link.is_first link.level.var.0 link.inner.now) (λ f. FExists link.level.var.0 f)
            (parts_of sign (form_of part.now)) }
        requires row { length row.now ≡ self.old.structure.size }
        ensures exact { result ≡ best (across sign link.entry.level.quantifier) (λ u. smaller_of
            (least_part (is_taken link.entry.is_first link.entry.level.var.0 link.entry.inner.now)
            (structure_of self.old.structure)
            (put (assignment_of a.now) link.entry.level.var.0 u) (parts_of sign (form_of part.now)))
            (slice_index_or row.now u No)) (range_with_len 0 self.old.structure.size) }
        ensures same { self.new ≡ self.old }
    {
        let q = link.level.quantifier.across(sign);
        let individuals = self.size();
        let mut most = K3::No;
        for chunk in 0..chunks(individuals) {
            let behind = row.word(chunk);
            let word = self.linked_word(part, sign, link, chunk, behind, a);
            let turned = q.turned_word(word, places(individuals, chunk));
            most = most.or(turned.greatest());
            if most == K3::Yes {
                return q.turned(most);
            }
        }
        q.turned(most)
    }

    /// The least values of the word and of those parts of the formula that stand at the link.
    #[cycle(values)]
    fn linked_word(
        &mut self,
        f: &'a Formula,
        sign: Quantifier,
        link: Link<'_>,
        chunk: u32,
        word: Word,
        a: &Assignment,
    ) -> Word
        requires parts { CanTake self.old.structure a.now (sizes_in self.old)
            (is_taken link.is_first link.level.var.0 link.inner.now) (λ f. FExists link.level.var.0 f)
            (parts_of sign (form_of f.now)) }
        requires chunk { 64 * chunk < self.old.structure.size }
        ensures exact { (g : ℕ → K3) → IsWordOf self.old.structure.size chunk g word
            → IsWordOf self.old.structure.size chunk (λ u. smaller_of
            (least_part (is_taken link.entry.is_first link.entry.level.var.0 link.entry.inner.now)
            (structure_of self.old.structure)
            (put (assignment_of a.now) link.entry.level.var.0 u) (parts_of sign (form_of f.now)))
            (g u)) result }
        ensures same { self.new ≡ self.old }
    {
        if word.greatest() == K3::No {
            return word;
        }
        match split(sign, f) {
            Shape::Two(g, h) => {
                let first = self.linked_word(g, sign, link, chunk, word, a);
                self.linked_word(h, sign, link, chunk, first, a)
            }
            Shape::Negated(g) => { self.linked_word(g, sign.other(), link, chunk, word, a) }
            Shape::Whole => {
                if !link.takes(f) {
                    return word;
                }
                let individuals = self.size();
                let values = self.word_of(f, link.level.var, chunk, a);
                sign.turned_word(values, places(individuals, chunk))
                    .and(word)
            }
        }
    }

    /// The value of a transitive closure.
    #[cycle(values)]
    fn closure(&mut self, from: Var, to: Var, edges: Edges<'a>, a: &Assignment) -> K3
        requires parts { CanEvaluate self.old.structure a.now (sizes_in self.old)
            (FClosure from.0 to.0 edges.left.0 edges.right.0 (form_of edges.body.now)) }
        ensures exact { result ≡ value (structure_of self.old.structure) (assignment_of a.now)
            (FClosure from.0 to.0 edges.entry.left.0 edges.entry.right.0 (form_of edges.entry.body.now)) }
        ensures same { self.new ≡ self.old }
    {
        let part = Part::From(a.at(from));
        let to = a.at(to);
        let word = self.closed_part(part, to / 64, edges, a);
        word.get(to % 64)
    }

    /// A part of the closed edges: they are read where they are kept, and else evaluated once and closed in
    /// a room that is taken out meanwhile.
    #[cycle(values)]
    #[inline(never)]
    fn closed_part(&mut self, part: Part, chunk: u32, edges: Edges<'a>, a: &Assignment) -> Word
        requires part { IsPart self.old.structure.size part }
        requires chunk { 64 * chunk < self.old.structure.size }
        requires body { CanEvaluate self.old.structure a.now (sizes_in self.old)
            (FExists edges.left.0 (FExists edges.right.0 (form_of edges.body.now))) }
        requires room { HasRooms self.old.structure.size (nesting (form_of edges.body.now) + 1)
            (sizes_in self.old) }
        requires own { edges.left.0 ≢ edges.right.0 }
        ensures exact { IsWordOf self.old.structure.size chunk (part_at part
            (closed_values self.old.structure (assignment_of a.now)
            edges.entry.left.0 edges.entry.right.0 (form_of edges.entry.body.now))) result }
        ensures same { self.new ≡ self.old }
    {
        let individuals = self.size();
        if let Some(word) = self.kept_part(part, chunk, edges) {
            return word;
        }
        let mut relation = self.take_room();
        self.fill(edges, a, &mut relation);
        relation.close(individuals);
        let word = relation.part(part, chunk, individuals);
        self.offer(edges, a, &mut relation);
        self.give_room(relation);
        word
    }

    /// Evaluates the body for all pairs of individuals, put for the closure's own variables.
    #[cycle(values)]
    #[inline(never)]
    fn fill(&mut self, edges: Edges<'a>, a: &Assignment, relation: &mut Relation)
        requires body { CanEvaluate self.old.structure a.now (sizes_in self.old)
            (FExists edges.left.0 (FExists edges.right.0 (form_of edges.body.now))) }
        requires size { self.old.structure.size ≤ length relation.old }
        ensures edges { (u w : ℕ) → u < self.old.structure.size → w < self.old.structure.size
            → entry_in relation.new u w ≡ value (structure_of self.old.structure)
            (put (put (assignment_of a.now) edges.entry.left.0 u) edges.entry.right.0 w)
            (form_of edges.entry.body.now) }
        ensures square { IsSquare self.old.structure.size relation.new }
        ensures size { length relation.new ≡ length relation.old }
        ensures same { self.new ≡ self.old }
    {
        if let Some(pred) = row_atom(edges) {
            put_rows(pred, self.structure(), relation);
            return;
        }
        let individuals = self.size();
        let mut here = *a;
        for u in 0..individuals {
            here.set(edges.left, u);
            let row = self.row_of(edges.body, edges.right, &here);
            relation.put_row(u, &row);
        }
    }

    /// The values of the formula for all individuals, put for `v`.
    #[cycle(values)]
    pub fn row_of(&mut self, f: &'a Formula, v: Var, a: &Assignment) -> Row
        requires parts { CanEvaluate self.old.structure a.now (sizes_in self.old) (FExists v.0
            (form_of f.now)) }
        ensures exact { result ≡ values_along self.old.structure (assignment_of a.now) v.0 (form_of f.now) }
        ensures same { self.new ≡ self.old }
    {
        let individuals = self.size();
        if individuals > 0 && individuals <= 64 {
            return self.row_of_few(f, v, a);
        }
        let mut values = Row::of(individuals, K3::No);
        for chunk in 0..chunks(individuals) {
            let word = self.word_of(f, v, chunk, a);
            values.put_word(chunk, word);
        }
        values
    }

    /// The same for individuals that one word has values for.
    #[cycle(values)]
    fn row_of_few(&mut self, f: &'a Formula, v: Var, a: &Assignment) -> Row
        requires parts { CanEvaluate self.old.structure a.now (sizes_in self.old) (FExists v.0
            (form_of f.now)) }
        requires some { 0 < self.old.structure.size }
        requires few { self.old.structure.size ≤ 64 }
        ensures exact { result ≡ values_along self.old.structure (assignment_of a.now) v.0 (form_of f.now) }
        ensures same { self.new ≡ self.old }
    {
        let individuals = self.size();
        let word = self.word_of(f, v, 0, a);
        let mut values = Row::of(individuals, K3::No);
        values.put_word(0, word);
        values
    }

    /// The values of the formula for the individuals from `64 * chunk` on, put for `v`: 64, or as many as
    /// there are. What stands behind the last isn't told.
    #[cycle(values)]
    #[inline(always)]
    pub fn word_of(&mut self, f: &'a Formula, v: Var, chunk: u32, a: &Assignment) -> Word
        requires parts { CanEvaluate self.old.structure a.now (sizes_in self.old) (FExists v.0
            (form_of f.now)) }
        requires chunk { 64 * chunk < self.old.structure.size }
        ensures exact { IsWordAlong self.old.structure (assignment_of a.now) v.0 chunk
            (form_of f.now) result }
        ensures same { self.new ≡ self.old }
    {
        match f {
            Formula::Atom(pred, terms) => atom_word(*pred, terms, v, chunk, self.structure(), a),
            Formula::Same(x, y) => same_word(*x, *y, v, chunk, self.structure(), a),
            Formula::Not(g) => self.words_negated(g, v, chunk, a),
            _ => self.word_by_parts(f, v, chunk, a),
        }
    }

    /// The same, part by part: literals, which are most of what is asked, don't come here.
    #[cycle(values)]
    #[inline(never)]
    fn word_by_parts(&mut self, f: &'a Formula, v: Var, chunk: u32, a: &Assignment) -> Word
        requires parts { CanEvaluate self.old.structure a.now (sizes_in self.old) (FExists v.0
            (form_of f.now)) }
        requires chunk { 64 * chunk < self.old.structure.size }
        ensures exact { IsWordAlong self.old.structure (assignment_of a.now) v.0 chunk
            (form_of f.now) result }
        ensures same { self.new ≡ self.old }
    {
        match f {
            Formula::Zero => constant_word(K3::No),
            Formula::One => constant_word(K3::Yes),
            Formula::Atom(pred, terms) => atom_word(*pred, terms, v, chunk, self.structure(), a),
            Formula::IsNew(w) => new_word(*w, v, chunk, self.structure(), a),
            Formula::Same(x, y) => same_word(*x, *y, v, chunk, self.structure(), a),
            Formula::Not(g) => self.words_negated(g, v, chunk, a),
            Formula::And(g, h) => self.words_both(g, h, v, chunk, a),
            Formula::Or(g, h) => self.words_either(g, h, v, chunk, a),
            Formula::Iff(g, h) => self.words_alike(g, h, v, chunk, a),
            Formula::Cond(c, g, h) => self.words_choice(c, g, h, v, chunk, a),
            Formula::Exists(w, g) => {
                let q = Quantifier::Exists;
                self.quantified_word(f, q, *w, g, v, chunk, a)
            }
            Formula::Forall(w, g) => {
                let q = Quantifier::Forall;
                self.quantified_word(f, q, *w, g, v, chunk, a)
            }
            Formula::Closure {
                from,
                to,
                left,
                right,
                body,
            } => {
                let edges = Edges {
                    left: *left,
                    right: *right,
                    body,
                };
                if has_outer(edges, v.0) {
                    let q = Quantifier::Exists;
                    let front = constant_word(K3::Yes);
                    return self.by_values(f, q, front, v, chunk, a);
                }
                self.closure_word(*from, *to, edges, v, chunk, a)
            }
        }
    }

    /// The values of the formula one after the other, for the same individuals; one for all of them where `v`
    /// isn't free in it. It isn't evaluated where `front` is `No`: there it is `No`, negated for "for all".
    #[cycle(values)]
    #[inline(never)]
    fn by_values(
        &mut self,
        f: &'a Formula,
        q: Quantifier,
        front: Word,
        v: Var,
        chunk: u32,
        a: &Assignment,
    ) -> Word
        requires parts { CanEvaluate self.old.structure a.now (sizes_in self.old) (FExists v.0
            (form_of f.now)) }
        requires chunk { 64 * chunk < self.old.structure.size }
        requires front { IsCapWord self.old.structure.size chunk (λ u. turned q (value
            (structure_of self.old.structure)
            (put (assignment_of a.now) v.0 u) (form_of f.now)) ≡ No) front }
        ensures exact { IsWordAlong self.old.structure (assignment_of a.now) v.0 chunk
            (form_of f.now) result }
        ensures same { self.new ≡ self.old }
    {
        let count = places(self.size(), chunk);
        let asked = front.first(count);
        if !has_few(asked) && !free(f, v) {
            return constant_word(self.value_of(f, a));
        }
        let mut values = q.turned_word(Word::of(64, K3::No), count);
        let mut here = *a;
        let mut from = 0;
        while let Some(i) = asked.first_possible(from) {
            here.set(v, 64 * chunk + i);
            values = values.with(i, self.value_of(f, &here));
            from = i + 1;
        }
        values
    }

    #[cycle(values)]
    #[inline(never)]
    fn words_negated(&mut self, g: &'a Formula, v: Var, chunk: u32, a: &Assignment) -> Word
        requires parts { CanEvaluate self.old.structure a.now (sizes_in self.old) (FExists v.0 (FNot
            (form_of g.now))) }
        requires chunk { 64 * chunk < self.old.structure.size }
        ensures exact { IsWordAlong self.old.structure (assignment_of a.now) v.0 chunk (FNot
            (form_of g.now)) result }
        ensures same { self.new ≡ self.old }
    {
        let individuals = self.size();
        self.word_of(g, v, chunk, a).not(places(individuals, chunk))
    }

    #[cycle(values)]
    fn words_both(
        &mut self,
        g: &'a Formula,
        h: &'a Formula,
        v: Var,
        chunk: u32,
        a: &Assignment,
    ) -> Word
        requires parts { CanEvaluate self.old.structure a.now (sizes_in self.old)
            (FExists v.0 (FAnd (form_of g.now) (form_of h.now))) }
        requires chunk { 64 * chunk < self.old.structure.size }
        ensures exact { IsWordAlong self.old.structure (assignment_of a.now) v.0 chunk
            (FAnd (form_of g.now) (form_of h.now)) result }
        ensures same { self.new ≡ self.old }
    {
        if is_literal(h) {
            let second = self.word_of(h, v, chunk, a);
            if second.greatest() == K3::No {
                return second;
            }
            return self.word_of(g, v, chunk, a).and(second);
        }
        let first = self.word_of(g, v, chunk, a);
        if first.greatest() == K3::No {
            return first;
        }
        first.and(self.word_of(h, v, chunk, a))
    }

    #[cycle(values)]
    fn words_either(
        &mut self,
        g: &'a Formula,
        h: &'a Formula,
        v: Var,
        chunk: u32,
        a: &Assignment,
    ) -> Word
        requires parts { CanEvaluate self.old.structure a.now (sizes_in self.old)
            (FExists v.0 (FOr (form_of g.now) (form_of h.now))) }
        requires chunk { 64 * chunk < self.old.structure.size }
        ensures exact { IsWordAlong self.old.structure (assignment_of a.now) v.0 chunk
            (FOr (form_of g.now) (form_of h.now)) result }
        ensures same { self.new ≡ self.old }
    {
        let count = places(self.size(), chunk);
        if is_literal(h) {
            let second = self.word_of(h, v, chunk, a);
            if second.least(count) == K3::Yes {
                return second;
            }
            return self.word_of(g, v, chunk, a).or(second);
        }
        let first = self.word_of(g, v, chunk, a);
        if first.least(count) == K3::Yes {
            return first;
        }
        first.or(self.word_of(h, v, chunk, a))
    }

    #[cycle(values)]
    fn words_alike(
        &mut self,
        g: &'a Formula,
        h: &'a Formula,
        v: Var,
        chunk: u32,
        a: &Assignment,
    ) -> Word
        requires parts { CanEvaluate self.old.structure a.now (sizes_in self.old)
            (FExists v.0 (FIff (form_of g.now) (form_of h.now))) }
        requires chunk { 64 * chunk < self.old.structure.size }
        ensures exact { IsWordAlong self.old.structure (assignment_of a.now) v.0 chunk
            (FIff (form_of g.now) (form_of h.now)) result }
        ensures same { self.new ≡ self.old }
    {
        let count = places(self.size(), chunk);
        let first = self.word_of(g, v, chunk, a);
        let second = self.word_of(h, v, chunk, a);
        let forth = first.not(count).or(second);
        forth.and(second.not(count).or(first))
    }

    #[cycle(values)]
    fn words_choice(
        &mut self,
        c: &'a Formula,
        g: &'a Formula,
        h: &'a Formula,
        v: Var,
        chunk: u32,
        a: &Assignment,
    ) -> Word
        requires parts { CanEvaluate self.old.structure a.now (sizes_in self.old)
            (FExists v.0 (FCond (form_of c.now) (form_of g.now) (form_of h.now))) }
        requires chunk { 64 * chunk < self.old.structure.size }
        ensures exact { IsWordAlong self.old.structure (assignment_of a.now) v.0 chunk
            (FCond (form_of c.now) (form_of g.now) (form_of h.now)) result }
        ensures same { self.new ≡ self.old }
    {
        let count = places(self.size(), chunk);
        let condition = self.word_of(c, v, chunk, a);
        if condition.least(count) == K3::Yes {
            return self.word_of(g, v, chunk, a);
        }
        if condition.greatest() == K3::No {
            return self.word_of(h, v, chunk, a);
        }
        let first = self.word_of(g, v, chunk, a);
        let second = self.word_of(h, v, chunk, a);
        let then = condition.and(first);
        let otherwise = condition.not(count).and(second);
        then.or(otherwise)
    }

    /// The values of the body under the quantifier over `w`: the words of the individuals that nothing
    /// rules out
    /// joined, until all values are known; or value by value, where that is less.
    #[cycle(values)]
    #[inline(never)]
    fn quantified_word(
        &mut self,
        f: &'a Formula,
        q: Quantifier,
        w: Var,
        body: &'a Formula,
        v: Var,
        chunk: u32,
        a: &Assignment,
    ) -> Word
        requires parts { CanEvaluate self.old.structure a.now (sizes_in self.old)
            (FExists v.0 (FExists w.0 (form_of body.now))) }
        requires chunk { 64 * chunk < self.old.structure.size }
        requires whole { form_of f.now ≡ quantified q w.0 (form_of body.now) }
        ensures exact { IsWordAlong self.old.structure (assignment_of a.now) v.0 chunk
            (quantified q w.0 (form_of body.now)) result }
        ensures same { self.new ≡ self.old }
    {
        if w.0 == v.0 {
            let front = constant_word(K3::Yes);
            return self.by_values(f, q, front, v, chunk, a);
        }
        let s = self.structure();
        if begins_with(body, w) {
            let caps = cap_row(q, body, Variables::none().with(v), w, s, a);
            if are_few(&caps) {
                return self.joined_words(q, w, body, &caps, v, chunk, a);
            }
        }
        let count = places(self.size(), chunk);
        let front = cap_word(q, body, Variables::none().with(w), v, chunk, s, a).first(count);
        if has_few(front) {
            return self.by_values(f, q, front, v, chunk, a);
        }
        let caps = cap_row(q, body, Variables::none().with(v), w, s, a);
        if is_slower(body, v, w, front, count, &caps) {
            return self.by_values(f, q, front, v, chunk, a);
        }
        self.joined_words(q, w, body, &caps, v, chunk, a)
    }

    /// The words of the individuals that the caps don't rule out joined, until all values are known.
    #[cycle(values)]
    #[inline(never)]
    fn joined_words(
        &mut self,
        q: Quantifier,
        w: Var,
        body: &'a Formula,
        caps: &Row,
        v: Var,
        chunk: u32,
        a: &Assignment,
    ) -> Word
        requires parts { CanEvaluate self.old.structure a.now (sizes_in self.old)
            (FExists v.0 (FExists w.0 (form_of body.now))) }
        requires chunk { 64 * chunk < self.old.structure.size }
        requires apart { w.0 ≢ v.0 }
        requires caps { IsCapRow self.old.structure.size (λ x. (u : ℕ) → turned q (value
            (structure_of self.old.structure)
            (put (put (assignment_of a.now) v.0 u) w.0 x) (form_of body.now)) ≡ No) caps.now }
        ensures exact { IsWordAlong self.old.structure (assignment_of a.now) v.0 chunk
            (quantified q w.0 (form_of body.now)) result }
        ensures same { self.new ≡ self.old }
    {
        let count = places(self.size(), chunk);
        let mut found = Word::of(64, K3::No);
        let mut here = *a;
        let mut from = 0;
        while let Some(x) = caps.next_possible(from) {
            here.set(w, x);
            let word = self.word_of(body, v, chunk, &here);
            found = found.or(q.turned_word(word, count));
            if found.least(count) == K3::Yes {
                return q.turned_word(found, count);
            }
            from = x + 1;
        }
        q.turned_word(found, count)
    }

    /// The values of a transitive closure whose edges don't depend on what `v` stands for.
    #[cycle(values)]
    fn closure_word(
        &mut self,
        from: Var,
        to: Var,
        edges: Edges<'a>,
        v: Var,
        chunk: u32,
        a: &Assignment,
    ) -> Word
        requires parts { CanEvaluate self.old.structure a.now (sizes_in self.old)
            (FExists v.0 (FClosure from.0 to.0 edges.left.0 edges.right.0 (form_of edges.body.now))) }
        requires chunk { 64 * chunk < self.old.structure.size }
        requires steady { ¬ ((v.0 ≢ edges.left.0) × (v.0 ≢ edges.right.0) × IsFree v.0
            (form_of edges.body.now)) }
        ensures exact { IsWordAlong self.old.structure (assignment_of a.now) v.0 chunk
            (FClosure from.0 to.0 edges.entry.left.0 edges.entry.right.0
            (form_of edges.entry.body.now)) result }
        ensures same { self.new ≡ self.old }
    {
        if from.0 == v.0 {
            if to.0 == v.0 {
                return self.closed_part(Part::Diagonal, chunk, edges, a);
            }
            let part = Part::To(a.at(to));
            return self.closed_part(part, chunk, edges, a);
        }
        if to.0 == v.0 {
            let part = Part::From(a.at(from));
            return self.closed_part(part, chunk, edges, a);
        }
        constant_word(self.closure(from, to, edges, a))
    }
}
