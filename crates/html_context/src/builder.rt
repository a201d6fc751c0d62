//! The rows of nodes: each function writes rows that are walked as the plan of what it is given.

ghost use Rattle.std.specs.Prelude.{◌≡◌, ◌<◌, ◌++◌, ◌∷◌, [], OnOk, length, map, option_map};
ghost use Rattle.std.specs.List.{All};
ghost use Rattle.soy_meaning.specs.Paths.Plan.{Hole, Then, arms_meet};
ghost use Rattle.soy_meaning.specs.Paths.PlanOfNodes.{argument_frames, arm_plans, body_plan, called_classes};
ghost use Rattle.soy_meaning.specs.Paths.PlanOfNodes.{case_plans};
ghost use Rattle.soy_meaning.specs.Paths.PlanOfNodes.{fallback_plans, node_plan, nodes_plan, plural_plans};
ghost use Rattle.soy_meaning.specs.Paths.PlanOfNodes.{select_plans};
ghost use Rattle.soy_meaning.specs.Paths.PlanOfNodes.{given_frame, translation_plans};
ghost use Rattle.soy_meaning.specs.Paths.PlanOfParts.{parts_plan};
ghost use Rattle.soy_rules.specs.Placeholders.{uses_of};
ghost use Rattle.soy_rules.specs.Templates.{callee};
ghost use Rattle.soy_tree.specs.ViewMessageParts.{view_parts};
ghost use Rattle.soy_tree.specs.ViewNodes.{view_arguments, view_arms, view_body, view_cases, view_given, view_message};
ghost use Rattle.soy_tree.specs.ViewNodes.{fallback_of, view_node, view_nodes, view_plural_cases, view_select_cases};
ghost use Rattle.soy_expr.specs.ViewScope.{view_vars};
ghost use Rattle.msg_extract.specs.PlaceholderNodes.{placeholders_of};
ghost use Rattle.msg_extract.specs.Views.ViewPlaceholders.{view_placeholder};
ghost use Rattle.html_context.specs.RowPlans.{plan_at};
ghost use Rattle.html_context.specs.StandsFor.{Writes, WritesMore};
ghost use Rattle.html_context.specs.ViewBuilder.{plan_context};
ghost use Rattle.html_context.specs.Walks.{view_site};

use crate::classes::kind_class;
use crate::fault::Site;
use crate::parts::all_parts;
use crate::scope::{enter_loop, pass};
use crate::source::Source;
use crate::table::Row;
use crate::templates::callee;
use crate::writing::{write, write_hole, write_nothing, write_print, write_text};
use msg_extract::{NamedMessage, NamedPlaceholders, Placeholder, Translations};
use soy_base::{Boxed, OutOfMemory, Seq, Text};
use soy_expr::{VisibleVariables, narrow_variables, restore};
use soy_rules::Templates;
use soy_tree::{
    Argument, Arm, Case, Form, Given, Message, MessageBody, MsgPart, Node, PluralCase, SelectCase,
};
use std::alloc::Global;

/// What the rows of a template go by: the number of its file and its namespace, the templates of all files, and the
/// bundle that brings the translations of messages.
#[derive(Drop)]
pub(crate) struct Builder<'a> {
    pub alloc: Global,
    pub file: u32,
    pub namespace: &'a Text,
    pub declared: &'a Templates<'a>,
    pub bundle: &'a Translations<'a>,
}

impl<'a> Builder<'a> {
    /// A site of the file.
    fn site(&self, at: u64) -> Site
        ensures { result ≡ record { file = self.now.file; at = at } }
    {
        Site {
            file: self.file,
            at,
        }
    }

    /// Writes the hole of a call.
    fn call(&self, at: Site, name: &Text, rows: &mut Vec<Row>) -> Result<usize, OutOfMemory>
        ensures { Writes (Hole (view_site at) (called_classes
            (callee (plan_context self.now).declared self.now.namespace.now name.now)))
            rows.old.items rows.new.items result }
    {
        match callee(self.alloc, self.declared, self.namespace, name)? {
            None => write(rows, Row::Hole(at, Seq::new(Vec::new(self.alloc)))),
            Some(declared) => {
                let class = kind_class(declared.template.kind);
                write_hole(self.alloc, at, class, rows)
            }
        }
    }

    /// Writes the parts of a translation of a message, which has these placeholders.
    fn translated_parts(
        &self,
        at: Site,
        message: &NamedMessage<'_>,
        vars: &VisibleVariables,
        placeholders: &[Placeholder],
        parts: &[MsgPart],
        rows: &mut Vec<Row>,
    ) -> Result<usize, OutOfMemory>
        requires { map view_placeholder placeholders.now ≡ placeholders_of (view_message message.now) }
        ensures { Writes (parts_plan (uses_of (view_message message.now)) (view_vars vars.now) (view_site at)
            (view_parts parts.now)) rows.old.items rows.new.items result }
    {
        let named = NamedPlaceholders::new(self.alloc, placeholders)?;
        self.named_parts(at, message, vars, &named, parts, rows)
    }

    /// Writes the parts of a translation of a message, whose placeholders are found by their names.
    fn named_parts(
        &self,
        at: Site,
        message: &NamedMessage<'_>,
        vars: &VisibleVariables,
        placeholders: &NamedPlaceholders<'_>,
        parts: &[MsgPart],
        rows: &mut Vec<Row>,
    ) -> Result<usize, OutOfMemory>
        requires { map view_placeholder placeholders.now ≡ placeholders_of (view_message message.now) }
        ensures { Writes (parts_plan (uses_of (view_message message.now)) (view_vars vars.now) (view_site at)
            (view_parts parts.now)) rows.old.items rows.new.items result }
    {
        let source = Source {
            alloc: self.alloc,
            at,
            vars,
            message,
            placeholders,
        };
        all_parts(&source, parts, rows)
    }

    /// Writes the translation of a message, if there is one, behind arms of these numbers. A bundle without translations
    /// needs no names.
    fn translation(
        &self,
        at: Site,
        message: &Message,
        vars: &VisibleVariables,
        before: Vec<usize>,
        rows: &mut Vec<Row>,
    ) -> Result<Vec<usize>, OutOfMemory>
        requires { All (λ n. n < length rows.old.items) before.items }
        ensures { WritesMore before.items
            (translation_plans (plan_context self.now) (view_message message.now) (view_vars vars.now) (view_site at))
            rows.old.items rows.new.items result }
    {
        if self.bundle.is_empty() {
            return Ok(before);
        }
        let named = NamedMessage::new(self.alloc, message)?;
        self.named_translation(at, &named, vars, before, rows)
    }

    /// Writes the translation of a message with its names, if there is one, behind arms of these numbers.
    fn named_translation(
        &self,
        at: Site,
        message: &NamedMessage<'_>,
        vars: &VisibleVariables,
        before: Vec<usize>,
        rows: &mut Vec<Row>,
    ) -> Result<Vec<usize>, OutOfMemory>
        requires { All (λ n. n < length rows.old.items) before.items }
        ensures { WritesMore before.items
            (translation_plans (plan_context self.now) (view_message message.now) (view_vars vars.now) (view_site at))
            rows.old.items rows.new.items result }
    {
        let mut numbers = before;
        let Some(parts) = self.bundle.find(self.alloc, message)? else {
            return Ok(numbers);
        };
        let placeholders = message.placeholders(self.alloc)?;
        let number = self.translated_parts(at, message, vars, placeholders.items(), parts, rows)?;
        numbers.push(number)?;
        Ok(numbers)
    }

    /// Writes the translation of a message's fallback, if there is one, behind arms of these numbers.
    fn fallback(
        &self,
        at: Site,
        other: &Option<Boxed<Message>>,
        vars: &VisibleVariables,
        before: Vec<usize>,
        rows: &mut Vec<Row>,
    ) -> Result<Vec<usize>, OutOfMemory>
        requires { All (λ n. n < length rows.old.items) before.items }
        ensures { WritesMore before.items (fallback_plans (plan_context self.now)
            (fallback_of (option_map view_message other.now)) (view_vars vars.now) (view_site at))
            rows.old.items rows.new.items result }
    {
        match other {
            None => Ok(before),
            Some(message) => self.translation(at, message.get(), vars, before, rows),
        }
    }

    /// Writes the translations of a message and of its fallback, and that they meet with the source.
    #[tactic(auto, using(crate::proofs::BuiltRows::translated_meet))]
    fn translated(
        &self,
        at: Site,
        source: usize,
        message: &Message,
        other: &Option<Boxed<Message>>,
        vars: &VisibleVariables,
        rows: &mut Vec<Row>,
    ) -> Result<usize, OutOfMemory>
        requires { source < length rows.old.items }
        ensures { Writes (arms_meet (view_site at) (plan_at rows.old.items source
            ∷ (translation_plans (plan_context self.now) (view_message message.now) (view_vars vars.now) (view_site at)
            ++ fallback_plans (plan_context self.now) (fallback_of (option_map view_message other.now))
            (view_vars vars.now) (view_site at)))) rows.old.items rows.new.items result }
    {
        let mut numbers = Vec::new(self.alloc);
        numbers.push(source)?;
        let numbers = self.translation(at, message, vars, numbers, rows)?;
        let numbers = self.fallback(at, other, vars, numbers, rows)?;
        write(rows, Row::Meet(at, Seq::new(numbers)))
    }

    /// Writes nodes, one after the other.
    #[cycle(building)]
    #[tactic(auto, using(soy_expr::proofs::Growth::grown_same, soy_expr::proofs::Growth::grown_left))]
    pub(crate) fn nodes(
        &self,
        nodes: &[Node],
        vars: &mut VisibleVariables,
        rows: &mut Vec<Row>,
    ) -> Result<usize, OutOfMemory>
        ensures writes { Writes (nodes_plan (plan_context self.now) (view_nodes nodes.now) (view_vars vars.old))
            rows.old.items rows.new.items result }
        ensures kept { OnOk result (vars.new ≡ vars.old) }
    {
        let mut numbers = Vec::new(self.alloc);
        let count = vars.count()?;
        for node in nodes {
            let number = self.node(node, vars, rows)?;
            numbers.push(number)?;
            pass(self.alloc, node, vars)?;
        }
        vars.leave(count);
        write(rows, Row::InTurn(Seq::new(numbers)))
    }

    /// Writes a node.
    #[cycle(building)]
    #[tactic(auto, using(soy_expr::proofs::Growth::grown_left))]
    fn node(
        &self,
        node: &Node,
        vars: &mut VisibleVariables,
        rows: &mut Vec<Row>,
    ) -> Result<usize, OutOfMemory>
        ensures writes { Writes (node_plan (plan_context self.now) (view_node node.now) (view_vars vars.old))
            rows.old.items rows.new.items result }
        ensures kept { OnOk result (vars.new ≡ vars.old) }
    {
        let at = self.site(node.span.start);
        match &node.form {
            Form::Text(content) => write_text(self.alloc, at, content, rows),
            Form::Print(expr, _) => write_print(self.alloc, at, expr, vars, rows),
            Form::If(arms, None) => self.arms(at, arms.items(), &[], vars, rows),
            Form::If(arms, Some(other)) => self.arms(at, arms.items(), other.items(), vars, rows),
            Form::Switch(_, cases, None) => self.cases(at, cases.items(), &[], vars, rows),
            Form::Switch(_, cases, Some(other)) => {
                self.cases(at, cases.items(), other.items(), vars, rows)
            }
            Form::For(name, index, list, body) => {
                let count = vars.count()?;
                enter_loop(self.alloc, name.get(), index, list, vars)?;
                let body = self.nodes(body.items(), vars, rows)?;
                vars.leave(count);
                write(rows, Row::Loop(at, body))
            }
            Form::Let(_, _) => write_nothing(self.alloc, rows),
            Form::LetBlock(_, kind, body) => {
                let end = self.site(node.span.end);
                let body = self.nodes(body.items(), vars, rows)?;
                write(rows, Row::Frame(*kind, end, body))
            }
            Form::Call(name, _, given) => {
                let hole = self.call(at, name, rows)?;
                self.arguments(hole, given.items(), vars, rows)
            }
            Form::Message(message, other) => {
                let message = message.get();
                let source = self.body(at, &message.body, vars, rows)?;
                self.translated(at, source, message, other, vars, rows)
            }
        }
    }

    /// Writes the arms of an if, and its else or the way past all arms.
    #[cycle(building)]
    fn arms(
        &self,
        at: Site,
        arms: &[Arm],
        other: &[Node],
        vars: &mut VisibleVariables,
        rows: &mut Vec<Row>,
    ) -> Result<usize, OutOfMemory>
        ensures writes { Writes (arms_meet (view_site at)
            (arm_plans (plan_context self.now) (view_arms arms.now) (view_vars vars.old)
            ++ (nodes_plan (plan_context self.now) (view_nodes other.now) (view_vars vars.old) ∷ [])))
            rows.old.items rows.new.items result }
        ensures kept { OnOk result (vars.new ≡ vars.old) }
    {
        let mut numbers = Vec::new(self.alloc);
        for arm in arms {
            let mut outside = Vec::new(self.alloc);
            narrow_variables(self.alloc, &arm.when, vars, &mut outside)?;
            let number = self.nodes(arm.body.items(), vars, rows)?;
            restore(vars, outside);
            numbers.push(number)?;
        }
        let past = self.nodes(other, vars, rows)?;
        numbers.push(past)?;
        write(rows, Row::Meet(at, Seq::new(numbers)))
    }

    /// Writes the cases of a switch, and its default or the way past all cases.
    #[cycle(building)]
    fn cases(
        &self,
        at: Site,
        cases: &[Case],
        other: &[Node],
        vars: &mut VisibleVariables,
        rows: &mut Vec<Row>,
    ) -> Result<usize, OutOfMemory>
        ensures writes { Writes (arms_meet (view_site at)
            (case_plans (plan_context self.now) (view_cases cases.now) (view_vars vars.old)
            ++ (nodes_plan (plan_context self.now) (view_nodes other.now) (view_vars vars.old) ∷ [])))
            rows.old.items rows.new.items result }
        ensures kept { OnOk result (vars.new ≡ vars.old) }
    {
        let mut numbers = Vec::new(self.alloc);
        for case in cases {
            let number = self.nodes(case.body.items(), vars, rows)?;
            numbers.push(number)?;
        }
        let past = self.nodes(other, vars, rows)?;
        numbers.push(past)?;
        write(rows, Row::Meet(at, Seq::new(numbers)))
    }

    /// Writes the blocks of a call's params behind its hole.
    #[cycle(building)]
    fn arguments(
        &self,
        hole: usize,
        arguments: &[Argument],
        vars: &mut VisibleVariables,
        rows: &mut Vec<Row>,
    ) -> Result<usize, OutOfMemory>
        requires { hole < length rows.old.items }
        ensures writes { Writes (Then (plan_at rows.old.items hole)
            (argument_frames (plan_context self.now) (view_arguments arguments.now) (view_vars vars.old)))
            rows.old.items rows.new.items result }
        ensures kept { OnOk result (vars.new ≡ vars.old) }
    {
        let mut numbers = Vec::new(self.alloc);
        numbers.push(hole)?;
        for argument in arguments {
            let number = self.given(argument, vars, rows)?;
            numbers.push(number)?;
        }
        write(rows, Row::InTurn(Seq::new(numbers)))
    }

    /// Writes what a param is given, where that is a block.
    #[cycle(building)]
    fn given(
        &self,
        argument: &Argument,
        vars: &mut VisibleVariables,
        rows: &mut Vec<Row>,
    ) -> Result<usize, OutOfMemory>
        ensures writes { Writes (given_frame (plan_context self.now) (view_given argument.now.given) argument.now.span
            (view_vars vars.old)) rows.old.items rows.new.items result }
        ensures kept { OnOk result (vars.new ≡ vars.old) }
    {
        match &argument.given {
            Given::Plain(_) => write_nothing(self.alloc, rows),
            Given::Block(kind, body) => {
                let end = self.site(argument.span.end);
                let body = self.nodes(body.items(), vars, rows)?;
                write(rows, Row::Frame(*kind, end, body))
            }
        }
    }

    /// Writes the text of a message in the source.
    #[cycle(building)]
    fn body(
        &self,
        at: Site,
        body: &MessageBody,
        vars: &mut VisibleVariables,
        rows: &mut Vec<Row>,
    ) -> Result<usize, OutOfMemory>
        ensures writes { Writes (body_plan (plan_context self.now) (view_body body.now) (view_vars vars.old) (view_site at))
            rows.old.items rows.new.items result }
        ensures kept { OnOk result (vars.new ≡ vars.old) }
    {
        match body {
            MessageBody::Parts(nodes) => { self.nodes(nodes.items(), vars, rows) }
            MessageBody::Plural(_, _, cases, other) => {
                self.plural_cases(at, cases.items(), other.get(), vars, rows)
            }
            MessageBody::Select(_, cases, other) => {
                self.select_cases(at, cases.items(), other.get(), vars, rows)
            }
        }
    }

    /// Writes the cases of a plural and its default.
    #[cycle(building)]
    fn plural_cases(
        &self,
        at: Site,
        cases: &[PluralCase],
        other: &MessageBody,
        vars: &mut VisibleVariables,
        rows: &mut Vec<Row>,
    ) -> Result<usize, OutOfMemory>
        ensures writes { Writes (arms_meet (view_site at)
            (plural_plans (plan_context self.now) (view_plural_cases cases.now) (view_vars vars.old) (view_site at)
            ++ (body_plan (plan_context self.now) (view_body other.now) (view_vars vars.old) (view_site at) ∷ [])))
            rows.old.items rows.new.items result }
        ensures kept { OnOk result (vars.new ≡ vars.old) }
    {
        let mut numbers = Vec::new(self.alloc);
        for case in cases {
            let number = self.body(at, &case.body, vars, rows)?;
            numbers.push(number)?;
        }
        let past = self.body(at, other, vars, rows)?;
        numbers.push(past)?;
        write(rows, Row::Meet(at, Seq::new(numbers)))
    }

    /// Writes the cases of a select and its default.
    #[cycle(building)]
    fn select_cases(
        &self,
        at: Site,
        cases: &[SelectCase],
        other: &MessageBody,
        vars: &mut VisibleVariables,
        rows: &mut Vec<Row>,
    ) -> Result<usize, OutOfMemory>
        ensures writes { Writes (arms_meet (view_site at)
            (select_plans (plan_context self.now) (view_select_cases cases.now) (view_vars vars.old) (view_site at)
            ++ (body_plan (plan_context self.now) (view_body other.now) (view_vars vars.old) (view_site at) ∷ [])))
            rows.old.items rows.new.items result }
        ensures kept { OnOk result (vars.new ≡ vars.old) }
    {
        let mut numbers = Vec::new(self.alloc);
        for case in cases {
            let number = self.body(at, &case.body, vars, rows)?;
            numbers.push(number)?;
        }
        let past = self.body(at, other, vars, rows)?;
        numbers.push(past)?;
        write(rows, Row::Meet(at, Seq::new(numbers)))
    }
}
