//! What the tables come to, for every text. Each law is a contract with an empty body, so it holds of the definitions
//! that the calls of a state follow. In the laws of pages the walk is over templates: it follows each block by itself,
//! where the page has the block in a tag of its own.

ghost use Rattle.std.specs.Prelude.{◌≡◌, ◌↔◌, ◌++◌, ◌∷◌, [], ℕ, List, Ok, IsTrue, true, Option};
ghost use Rattle.soy_base.specs.Among.{lacks};
ghost use Rattle.soy_base.specs.Characters.{ampersand, less_than};
ghost use Rattle.soy_base.specs.StateAfter.{state_after};
ghost use Rattle.soy_base.specs.declared.kind.Kind.{Kind};
ghost use Rattle.soy_base.specs.declared.place.Place.TheVariants as place;
ghost use Rattle.soy_base.specs.declared.place.ValueClass.TheVariants as class;
ghost use Rattle.script_state.specs.CssNext.{css_next};
ghost use Rattle.script_state.specs.JsNext.{js_next};
ghost use Rattle.script_state.specs.declared.css_state.CssState.{CssState};
ghost use Rattle.script_state.specs.declared.js_state.JsState.{JsState};
ghost use Rattle.html_state.specs.AfterAll.{after_all};
ghost use Rattle.html_state.specs.AfterValue.{after_value};
ghost use Rattle.html_state.specs.Follows.{Follows, FollowsOn, FramesAttributes, FramesHtml, LeadsPage, PlacedAlike};
ghost use Rattle.html_state.specs.IsSame.{IsSame};
ghost use Rattle.html_state.specs.KeepsPlace.{HasNoLessThan, KeepsPlace, KeepsPlaceAt};
ghost use Rattle.html_state.specs.Leads.{Leads};
ghost use Rattle.html_state.specs.MayEnd.{may_end};
ghost use Rattle.html_state.specs.Next.{at_row, next, text_end, value_character_next};
ghost use Rattle.html_state.specs.PartNext.{part_next};
ghost use Rattle.html_state.specs.PartOf.{part_of};
ghost use Rattle.html_state.specs.AfterPieces.{after_pieces};
ghost use Rattle.soy_base.specs.Piece.{Piece};
ghost use Rattle.html_state.specs.RowAt.{in_script, in_style, inside, quoted};
ghost use Rattle.html_state.specs.StatePlacing.{placing};
ghost use Rattle.html_state.specs.TakesClass.{takes_class};
ghost use Rattle.html_state.specs.TextKinds.{IsPlainRawtext, IsRcdata, RunsNothing};
ghost use Rattle.html_state.specs.Texts.{and_then};
ghost use Rattle.html_state.specs.QuoteCharacter.{quote_character};
ghost use Rattle.html_state.specs.ValueNext.{followed};
ghost use Rattle.html_state.specs.declared.row.AttributeValue.TheVariants as value;
ghost use Rattle.html_state.specs.declared.row.AttributeValue.{AttributeValue};
ghost use Rattle.html_state.specs.declared.row.Element.{Element};
ghost use Rattle.html_state.specs.declared.row.HtmlRow.TheVariants as row;
ghost use Rattle.html_state.specs.declared.row.Quote.{Quote};
ghost use Rattle.html_state.specs.declared.row.Reference.TheVariants as reference;
ghost use Rattle.html_state.specs.declared.row.State.{State};
ghost use Rattle.html_state.specs.declared.row.Tag.{Tag};
ghost use Rattle.html_state.specs.declared.row.UriName.{UriName};
ghost use Rattle.html_state.specs.declared.row.UriPart.{UriPart};

/// States that `==` holds for are equal, and equal states are such.
pub fn law_equality()
    ensures { (one other : State) → IsSame one other ↔ (one ≡ other) }
{}

/// States that `==` holds for go on alike, and have the same placings and ends.
pub fn law_equal_states()
    ensures steps { (one other : State) (c : ℕ) → IsSame one other → next one c ≡ next other c }
    ensures value_steps { (one other : State) (c : ℕ) → IsSame one other →
        value_character_next one c ≡ value_character_next other c }
    ensures values { (one other : State) → IsSame one other → after_value one ≡ after_value other }
    ensures placings { (one other : State) → IsSame one other → placing one ≡ placing other }
    ensures ends { (kind : Kind) (one other : State) → IsSame one other → may_end kind one ≡ may_end kind other }
    ensures text_ends { (one other : State) → IsSame one other → text_end one ≡ text_end other }
    ensures parts { (one other : State) → IsSame one other → part_of one ≡ part_of other }
{}

/// Two texts read one after the other are their joined text: the state after them, or the first fault in them.
pub fn law_joined_texts()
    ensures static_text { (state : State) (first second : List ℕ) → after_all next state (first ++ second)
        ≡ and_then (λ middle. after_all next middle second) (after_all next state first) }
    ensures value { (state : State) (first second : List ℕ) → after_all value_character_next state (first ++ second)
        ≡ and_then (λ middle. after_all value_character_next middle second)
        (after_all value_character_next state first) }
{}

/// Two lists of pieces read one after the other are the joined list, likewise.
pub fn law_joined_pieces()
    ensures { (state : State) (first second : List Piece) → after_pieces state (first ++ second)
        ≡ and_then (λ middle. after_pieces middle second) (after_pieces state first) }
{}

/// Static text without `<` and `&` stays in data and in RCDATA, and text without `<` stays in RAWTEXT other than a
/// style's. In a script or a style it moves the table of scripts or of styles alone, and where that has no next state
/// the fault is 18.
pub fn law_plain_text()
    ensures in_data { (text : List ℕ) → IsTrue (lacks (less_than ∷ ampersand ∷ []) text) →
        after_all next (at_row row.Data) text ≡ Ok (at_row row.Data) }
    ensures in_rcdata { (now : Element) (text : List ℕ) → IsRcdata now →
        IsTrue (lacks (less_than ∷ ampersand ∷ []) text) → after_all next (inside now) text ≡ Ok (inside now) }
    ensures in_rawtext { (now : Element) (text : List ℕ) → IsPlainRawtext now → IsTrue (lacks (less_than ∷ []) text) →
        after_all next (inside now) text ≡ Ok (inside now) }
    ensures in_script { (state : JsState) (text : List ℕ) → IsTrue (lacks (less_than ∷ []) text) →
        after_all next (in_script state) text ≡ followed in_script (state_after js_next state text) }
    ensures in_style { (state : CssState) (text : List ℕ) → IsTrue (lacks (less_than ∷ []) text) →
        after_all next (in_style state) text ≡ followed in_style (state_after css_next state text) }
{}

/// Static text of a quoted value without its quote and `&` stays in it. It moves the part of a URI, or the table of
/// styles, and nothing else; where these meet a fault it is that one.
pub fn law_quoted_text()
    ensures plain { (around : Tag) (quote : Quote) (now : AttributeValue) (text : List ℕ) → RunsNothing now →
        IsTrue (lacks (quote_character quote ∷ ampersand ∷ []) text) →
        after_all next (quoted around quote now) text ≡ Ok (quoted around quote now) }
    ensures uri { (around : Tag) (quote : Quote) (name : UriName) (part : UriPart) (text : List ℕ) →
        IsTrue (lacks (quote_character quote ∷ ampersand ∷ []) text) →
        after_all next (quoted around quote (value.Uri name part)) text
        ≡ and_then (λ following. Ok (quoted around quote (value.Uri name following))) (after_all part_next part text) }
    ensures style { (around : Tag) (quote : Quote) (state : CssState) (text : List ℕ) →
        IsTrue (lacks (quote_character quote ∷ ampersand ∷ []) text) →
        after_all next (quoted around quote (value.Style state)) text
        ≡ followed (λ following. quoted around quote (value.Style following)) (state_after css_next state text) }
{}

/// Characters that are enough to keep a place lead a state with that placing, with the mark that a value sets, to the
/// state that a value leaves behind. Text without `<` keeps the place Text.
pub fn law_kept_place()
    ensures each_place { (state : State) (out : List ℕ) → KeepsPlaceAt (placing state) out → Leads state out }
    ensures text_place { (out : List ℕ) → HasNoLessThan out → KeepsPlace place.Text out }
{}

/// Where a static character is no fault of the walk's, the walk leaves its tag, or it is none of the page's and the
/// page goes on as the walk does.
pub fn law_page_step()
    ensures { (around : Option Tag) (page walk : State) (c : ℕ) → Follows around page walk →
        FollowsOn around (next page c) (next walk c) }
{}

/// Where the walk takes a value, the page takes it at the same place. A real tag may refuse the start of a URI that a
/// block took.
pub fn law_page_place()
    ensures { (around : Option Tag) (page walk : State) → Follows around page walk →
        PlacedAlike around (placing page) (placing walk) }
{}

/// Characters that keep the walk's place lead the page, with the mark that the value sets, to a state that goes on as
/// the walk's past the value.
pub fn law_page_value()
    ensures { (around : Option Tag) (page walk : State) (out : List ℕ) → Follows around page walk →
        KeepsPlaceAt (placing walk) out → LeadsPage around page walk out }
{}

/// Where the walk takes a block and no reference is pending, the page goes on as the walk of the block from its start,
/// and where the block may end, as the walk past the block.
pub fn law_page_frame()
    ensures attributes { (around : Option Tag) (page walk : State) → Follows around page walk →
        IsTrue (takes_class (placing walk) class.Attributes) → walk.reference ≡ reference.Decided →
        FramesAttributes around page walk }
    ensures html { (around : Option Tag) (page walk : State) → Follows around page walk →
        IsTrue (takes_class (placing walk) class.Html) → walk.reference ≡ reference.Decided →
        FramesHtml around page walk }
{}

/// Where a static text may end for the walk, it may for the page.
pub fn law_page_text_end()
    ensures { (around : Option Tag) (page walk : State) → Follows around page walk → text_end walk ≡ Ok walk →
        text_end page ≡ Ok page }
{}
