//! Documents of requests.
ghost use Rattle.std.specs.Prelude.{◌≡◌, MatchOption, None, option_map, string_bytes};
ghost use Rattle.server_protocol.specs.Shown.{index_encoding, index_text};
ghost use Rattle.server_requests.specs.Around as names;
ghost use Rattle.server_requests.specs.Shown as parts;
ghost use Rattle.server_symbols.specs.Occurrences as spec;

use serde_json::Value;
use server_protocol::client::Client;
use server_protocol::documents::{Document, Documents};
use server_protocol::params::{asked_position, asked_range, text_at};
use server_protocol::{PositionIndex, offset_of};
use server_symbols::{Definition, Extent, Token, TokenClass};

/// A document that a request is about, with its tokens and definitions.
#[derive(Drop)]
pub struct Context<'d> {
    pub uri: &'d str,
    pub text: &'d str,
    pub client: Client,
    pub tokens: &'d [Token],
    pub definitions: &'d [Definition],
    pub index: PositionIndex<'d>,
    pub ghost indexed: { index_text index ≡ text.now },
    pub ghost encoded: { index_encoding index ≡ client.encoding },
}

/// A name in a document.
#[derive(Clone, Copy)]
pub struct Name<'d> {
    pub extent: Extent,
    pub text: &'d str,
}

impl<'d> Context<'d> {
    ghost use Rattle.server_protocol.specs.Asked.{asked_position};
    ghost use Rattle.server_protocol.specs.Changes.{asked_range};
    ghost use Rattle.server_requests.specs.Names.{HasNoName, IsAskedExtent, IsAskedName, IsAskedOffset, IsContextIn, IsContextOf, IsNameAround, IsNameIn, IsNoPart, LacksDocument, LacksName};
    ghost use Rattle.server_requests.specs.Shown.{shown};
    ghost use Rattle.serde_json.specs.View.{view};

    /// Returns the context of a document.
    pub fn new(client: Client, uri: &'d str, document: &'d Document) -> Context<'d>
        ensures { IsContextOf client uri.entry.now (string_bytes document.entry.now.text) result }
    {
        Context {
            uri,
            text: document.text.as_str(),
            client,
            tokens: &document.tokens,
            definitions: &document.definitions,
            index: document.index(client.encoding),
        }
    }

    /// Returns the context of the document that parameters name, if it is open.
    pub fn of_params(
        client: Client,
        documents: &'d Documents,
        params: &'d Value,
    ) -> Option<Context<'d>>
        ensures { MatchOption result
            (LacksDocument documents.entry.now (view params.entry.now))
            (IsContextIn client documents.entry.now (view params.entry.now)) }
    {
        let Some(uri) = text_at(params, "/textDocument/uri") else {
            return None;
        };
        let Some(document) = documents.get(uri) else {
            return None;
        };
        Some(Context::new(client, uri, document))
    }

    /// Returns the offset of the position in parameters.
    pub fn offset(&self, params: &Value) -> Option<usize>
        ensures { MatchOption result (asked_position (view params.now) ≡ None)
            (IsAskedOffset self.now (view params.now)) }
    {
        match asked_position(params) {
            Some(position) => Some(offset_of(self.text, self.client.encoding, position)),
            None => None,
        }
    }

    /// Returns the bytes of the range in parameters.
    pub fn extent(&self, params: &Value) -> Option<Extent>
        ensures { MatchOption result (asked_range (view params.now) ≡ None)
            (IsAskedExtent self.now (view params.now)) }
    {
        match asked_range(params) {
            Some(range) => Some(Extent {
                start: offset_of(self.text, self.client.encoding, range.start),
                end: offset_of(self.text, self.client.encoding, range.end),
            }),
            None => None,
        }
    }

    /// Returns the name at the position in parameters.
    pub fn name(&self, params: &Value) -> Option<Name<'d>>
        ensures { MatchOption result (HasNoName self.now (view params.now))
            (IsAskedName self.now (view params.now)) }
    {
        match self.offset(params) {
            Some(offset) => self.name_around(offset),
            None => None,
        }
    }

    /// Returns the name that an offset is in, or at the end of.
    fn name_around(&self, offset: usize) -> Option<Name<'d>>
        ensures { MatchOption result (LacksName self.now offset) (IsNameAround self.now offset) }
    {
        match name_at(self.tokens, offset) {
            Some(extent) => self.name_of(extent),
            None => None,
        }
    }

    /// Returns the name of an extent, if that begins and ends between two characters.
    fn name_of(&self, extent: Extent) -> Option<Name<'d>>
        ensures { MatchOption result (IsNoPart self.now.text.now extent)
            (λ name. (name.extent ≡ extent) × IsNameIn self.now.text.now name) }
    {
        match self.text.get(extent.start..extent.end) {
            Some(text) => Some(Name { extent, text }),
            None => None,
        }
    }

    /// Returns the text of an extent, or nothing if it does not have whole characters.
    pub fn part(&self, extent: Extent) -> &'d str
        ensures { result.now ≡ shown self.now.text.now extent }
    {
        part_of(self.text, extent)
    }
}

/// Returns the text of an extent, or nothing if it does not have whole characters.
pub fn part_of(text: &str, extent: Extent) -> &str
    ensures { result.now ≡ parts.shown text.now extent }
{
    if is_whole(text.as_bytes(), extent) {
        &text[extent.start..extent.end]
    } else {
        ""
    }
}

/// Whether an extent has whole characters.
fn is_whole(text: &[u8], extent: Extent) -> bool
    ensures { result ≡ parts.is_whole text.now extent }
{
    extent.start <= extent.end && (is_boundary(text, extent.start) && is_boundary(text, extent.end))
}

/// Whether a character begins at a byte, or the text ends there.
fn is_boundary(text: &[u8], offset: usize) -> bool
    ensures { result ≡ parts.is_boundary text.now offset }
{
    if offset < text.len() {
        text[offset] < 128 || 192 <= text[offset]
    } else {
        offset == text.len()
    }
}

/// Returns the first name that an offset is in, or at the end of.
fn name_at(tokens: &[Token], offset: usize) -> Option<Extent>
    ensures { result ≡ names.name_around offset tokens.now }
{
    let mut rest = tokens;
    while let Some((token, after)) = rest.split_first() {
        if is_name_around(offset, *token) {
            return Some(token.extent());
        }
        rest = after;
    }
    None
}

/// Whether a token is a name that an offset is in, or at the end of.
fn is_name_around(offset: usize, token: Token) -> bool
    ensures { result ≡ names.is_name_around offset token }
{
    is_name(token.class) && token.start <= offset && offset <= token.end
}

/// Whether a class is that of names.
pub(crate) fn is_name(class: TokenClass) -> bool
    ensures { result ≡ spec.is_name class }
{
    matches!(class, TokenClass::Name)
}
