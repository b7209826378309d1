//! Which rule a text breaks.

mod block;
mod edit;
mod forms;
mod pattern;

ghost use Rattle.std.specs.Prelude.{◌≡◌, IfOk};
ghost use Rattle.kg_field_rules.specs.Choices.{is_choice};
ghost use Rattle.kg_field_rules.specs.TextRules.{choice_rule, has_form, is_longer, text_rule};

use crate::rule::Rule;
use crate::text_kind::{Choice, TextKind};
use crate::text_rule::block::is_ipv4_block;
use crate::text_rule::edit::{has_edit_form, has_header_edit_form, has_header_rename_form};
pub use crate::text_rule::forms::is_normal_path;
use crate::text_rule::forms::{
    has_method_form, has_name_form, has_no_controls, has_route_host_form, has_username_form,
};
use crate::text_rule::pattern::has_route_path_form;
use crate::url::is_url;
use kg_row_types::id::Id;
use kg_text::{NoMemory, has_host_form, is_token};
use std::alloc::Global;

/// The first rule that a text of a kind breaks.
#[tactic(auto, using(crate::proofs::RuleLemmas::text_steps))]
pub fn text_rule(alloc: Global, text_kind: TextKind, text: &str) -> Result<Option<Rule>, NoMemory>
    ensures { IfOk result (λ rule. rule ≡ text_rule text_kind text.now) }
{
    if text.is_empty() {
        return Ok(Some(Rule::Empty));
    }
    if is_longer(text_kind, text) {
        return Ok(Some(Rule::OutOfRange));
    }
    if has_form(alloc, text_kind, text)? {
        Ok(None)
    } else {
        Ok(Some(Rule::Syntax))
    }
}

/// Is the text longer than its kind allows?
pub fn is_longer(text_kind: TextKind, text: &str) -> bool
    ensures { result ≡ is_longer text_kind text.now }
{
    match text_kind.longest() {
        Some(most) => text.len() > most,
        None => false,
    }
}

/// Is the text spelled as its kind is?
pub fn has_form(alloc: Global, text_kind: TextKind, text: &str) -> Result<bool, NoMemory>
    ensures { IfOk result (λ has. has ≡ has_form text_kind text.now) }
{
    match text_kind {
        TextKind::Id => Ok(Id::parse(text.as_bytes()).is_some()),
        TextKind::Path => Ok(is_normal_path(text.as_bytes())),
        TextKind::Url => Ok(is_url(text.as_bytes())),
        TextKind::RoutePath => has_route_path_form(alloc, text),
        TextKind::LongText => Ok(has_no_controls(text)),
        TextKind::Name => Ok(has_name_form(text.as_bytes())),
        TextKind::FreeText => Ok(has_no_controls(text)),
        TextKind::Username => Ok(has_username_form(text)),
        TextKind::Anonymous => Ok(has_no_controls(text)),
        TextKind::Host => Ok(has_host_form(text.as_bytes())),
        TextKind::RouteHost => Ok(has_route_host_form(text.as_bytes())),
        TextKind::Method => Ok(has_method_form(text.as_bytes())),
        TextKind::Token => Ok(is_token(text.as_bytes())),
        TextKind::AddressBlock => is_ipv4_block(alloc, text.as_bytes()),
        TextKind::Edit => Ok(has_edit_form(text)),
        TextKind::HeaderEdit => Ok(has_header_edit_form(text)),
        TextKind::HeaderRename => Ok(has_header_rename_form(text)),
    }
}

/// The rule that a text breaks which has to be one of a few.
pub fn choice_rule(choice: Choice, text: &str) -> Option<Rule>
    ensures { result ≡ choice_rule choice text.now }
{
    if is_choice(choice, text) {
        None
    } else {
        Some(Rule::OneOf)
    }
}

/// Is the text one of these?
pub fn is_choice(choice: Choice, text: &str) -> bool
    ensures { result ≡ is_choice choice text.now }
{
    match choice {
        Choice::Plugin => is_plugin(text),
        Choice::SizeUnit => match text {
            "megabytes" | "kilobytes" | "bytes" => true,
            _ => false,
        },
        Choice::LimitBy => match text {
            "consumer" | "ip" | "service" => true,
            _ => false,
        },
        Choice::Protocol => match text {
            "http" | "https" => true,
            _ => false,
        },
    }
}

fn is_plugin(text: &str) -> bool
    ensures { result ≡ is_choice Choice.Plugin text.now }
{
    match text {
        "cors"
        | "key-auth"
        | "basic-auth"
        | "ip-restriction"
        | "request-size-limiting"
        | "acl"
        | "rate-limiting"
        | "request-transformer"
        | "response-transformer"
        | "request-termination" => true,
        _ => false,
    }
}
