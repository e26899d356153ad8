//! Operands, and the operators that go on after them.
#![tactic(auto, using(crate::proofs::OperandLemmas::operands), unfolding(c_ast::specs::Nonterminals::nonterminal_number, c_ast::specs::Nonterminals::level_number, c_ast::specs::Grammar::tighter, c_ast::specs::Grammar::rule, c_ast::specs::Grammar::allowed, c_ast::specs::Reader::production_of, c_ast::specs::PredictSets::left, c_ast::specs::PredictSets::operation, c_ast::specs::PredictSets::suffix, crate::specs::Operands::nonterminal_of, c_ast::specs::Terminals::is, c_ast::specs::Terminals::is_inc_dec_mark, c_ast::specs::Terminals::is_unary_mark, c_ast::specs::Terminals::is_assign_mark, c_ast::specs::Terminals::operator_level, c_ast::specs::Operators::selection_mark, c_ast::specs::Operators::selection_production, c_ast::specs::Operators::inc_dec_mark, c_ast::specs::Operators::unary_mark, c_ast::specs::Operators::binary_mark, c_ast::specs::Operators::binary_level, c_ast::specs::Operators::assign_mark, c_ast::specs::PredictSets::mark_suffix, c_ast::specs::PredictSets::operand, c_ast::specs::PredictSets::operand_mark, c_ast::specs::PredictSets::parenthesis, c_ast::specs::Nonterminals::same_nonterminal))]

ghost use Rattle.std.specs.Prelude.{◌≡◌, nat_le, option_map, IfSome};
ghost use Rattle.c_lex.specs.declared.token.TokenKind.TheVariants as kind;
ghost use Rattle.c_ast.specs.Nonterminals as nonterminal;
ghost use Rattle.std.specs.Option.{option_and_then};
ghost use Rattle.c_ast.specs.Nonterminals.{nonterminal_number};
ghost use Rattle.c_ast.specs.Expressions.{expr_tree};
ghost use Rattle.c_ast.specs.Grammar.{tighter, rule, allowed};
ghost use Rattle.c_ast.specs.Operators.{binary_level, binary_mark};
ghost use Rattle.c_ast.specs.Reader.{production_of};
ghost use Rattle.c_ast.specs.PredictSets as predict;
ghost use Rattle.c_ast.specs.PredictSets.{head, typed, mark_suffix, start, next};
ghost use Rattle.c_parse_tokens.specs.Operands.{nonterminal_of, operand_of, operand_production, suffix_production, suffix_mark, StartsAt, prefix_production};
ghost use Rattle.c_ast.specs.Terminals.{operator_level};

use crate::tokens::Tokens;
use c_ast::{AssignOp, BinaryOp, Expr, IncDec, Selection, UnaryOp};
use c_lex::{Keyword, Punct, TokenKind};

/// The operands that may stand somewhere, the tightest first: each precedence has those of the
/// ranks before it too.
#[derive(Clone, Copy)]
pub enum Precedence {
    Unary,
    Cast,
    Multiplicative,
    Additive,
    Shift,
    Relational,
    Equality,
    BitAnd,
    BitXor,
    BitOr,
    LogicalAnd,
    LogicalOr,
    Conditional,
    Assignment,
}

/// How an operand begins.
#[derive(Clone, Copy)]
pub enum OperandStart {
    Name,
    Number,
    Char,
    Text,
    Paren,
    Cast,
    IncDec(IncDec),
    Unary(UnaryOp),
    Sizeof,
}

/// How an operand goes on.
#[derive(Clone, Copy)]
pub enum Suffix {
    Index,
    Call,
    Select(Selection),
    IncDec(IncDec),
    Conditional,
    Assign(AssignOp),
    Binary(BinaryOp),
}

impl Tokens<'_> {
    /// How an operand of this precedence begins here.
    pub fn operand_start(&self, precedence: Precedence) -> Option<OperandStart>
        ensures production { option_map operand_production result ≡ start (nonterminal_of
            precedence) (head self.now) (typed self.now) }
        ensures operator { IfSome result (λ s. StartsAt s (head self.now)) }
    {
        match self.peek() {
            Some(TokenKind::Name(_)) => Some(OperandStart::Name),
            Some(TokenKind::Number { .. }) => Some(OperandStart::Number),
            Some(TokenKind::Char(_)) => Some(OperandStart::Char),
            Some(TokenKind::Text(_)) => Some(OperandStart::Text),
            Some(TokenKind::Keyword(Keyword::Sizeof)) => Some(OperandStart::Sizeof),
            Some(TokenKind::Punct(Punct::LParen)) => Some(parenthesis(
                precedence,
                self.sees_type_second(),
            )),
            Some(TokenKind::Punct(punct)) => prefix_operator(*punct),
            _ => None,
        }
    }

    /// How an operand goes on here after `left`, where one of this precedence is to stand.
    pub fn suffix_after(&self, precedence: Precedence, left: &Expr) -> Option<Suffix>
        ensures production { option_map suffix_production result ≡ next (nonterminal_of precedence)
            (production_of (expr_tree left.now)) (head self.now) }
        ensures operator { IfSome result (λ s. head self.now ≡ Some (kind.Punct (suffix_mark s))) }
    {
        match self.suffix() {
            Some(suffix) if fits(precedence, suffix) && takes(suffix, left) => Some(suffix),
            _ => None,
        }
    }

    /// The operator that comes next, if one does.
    fn suffix(&self) -> Option<Suffix>
        ensures production { option_map suffix_production result ≡ option_and_then predict.suffix
            (head self.now) }
        ensures operator { IfSome result (λ s. head self.now ≡ Some (kind.Punct (suffix_mark s))) }
    {
        match self.peek() {
            Some(TokenKind::Punct(punct)) => suffix_of(*punct),
            _ => None,
        }
    }
}

/// What `(` begins: a cast where a type follows and casts may stand.
fn parenthesis(precedence: Precedence, is_type: bool) -> OperandStart
    ensures { operand_production result ≡ predict.parenthesis (nonterminal_of precedence) is_type }
{
    match (precedence, is_type) {
        (Precedence::Unary, _) | (_, false) => OperandStart::Paren,
        _ => OperandStart::Cast,
    }
}

/// The operator that stands in front of an operand as this punctuator.
fn prefix_operator(punct: Punct) -> Option<OperandStart>
    ensures production { option_map operand_production result ≡ prefix_production punct }
    ensures operator { IfSome result (λ s. StartsAt s (Some (kind.Punct punct))) }
{
    match punct {
        Punct::PlusPlus => Some(OperandStart::IncDec(IncDec::Increment)),
        Punct::MinusMinus => Some(OperandStart::IncDec(IncDec::Decrement)),
        Punct::Amp => Some(OperandStart::Unary(UnaryOp::AddressOf)),
        Punct::Star => Some(OperandStart::Unary(UnaryOp::Deref)),
        Punct::Plus => Some(OperandStart::Unary(UnaryOp::Plus)),
        Punct::Minus => Some(OperandStart::Unary(UnaryOp::Minus)),
        Punct::Tilde => Some(OperandStart::Unary(UnaryOp::BitNot)),
        Punct::Bang => Some(OperandStart::Unary(UnaryOp::Not)),
        _ => None,
    }
}

/// The operator that goes on after an operand as this punctuator.
fn suffix_of(punct: Punct) -> Option<Suffix>
    ensures production { option_map suffix_production result ≡ mark_suffix punct }
    ensures operator { IfSome result (λ s. punct ≡ suffix_mark s) }
{
    match punct {
        Punct::LBracket => Some(Suffix::Index),
        Punct::LParen => Some(Suffix::Call),
        Punct::Dot => Some(Suffix::Select(Selection::Dot)),
        Punct::Arrow => Some(Suffix::Select(Selection::Arrow)),
        Punct::PlusPlus => Some(Suffix::IncDec(IncDec::Increment)),
        Punct::MinusMinus => Some(Suffix::IncDec(IncDec::Decrement)),
        Punct::Question => Some(Suffix::Conditional),
        Punct::Equal => Some(Suffix::Assign(AssignOp::Plain)),
        Punct::StarEqual => Some(Suffix::Assign(AssignOp::Multiply)),
        Punct::SlashEqual => Some(Suffix::Assign(AssignOp::Divide)),
        Punct::PercentEqual => Some(Suffix::Assign(AssignOp::Remainder)),
        Punct::PlusEqual => Some(Suffix::Assign(AssignOp::Add)),
        Punct::MinusEqual => Some(Suffix::Assign(AssignOp::Subtract)),
        Punct::ShiftLeftEqual => Some(Suffix::Assign(AssignOp::ShiftLeft)),
        Punct::ShiftRightEqual => Some(Suffix::Assign(AssignOp::ShiftRight)),
        Punct::AmpEqual => Some(Suffix::Assign(AssignOp::BitAnd)),
        Punct::CaretEqual => Some(Suffix::Assign(AssignOp::BitXor)),
        Punct::PipeEqual => Some(Suffix::Assign(AssignOp::BitOr)),
        _ => match binary_operator(punct) {
            Some(op) => Some(Suffix::Binary(op)),
            None => None,
        },
    }
}

fn binary_operator(punct: Punct) -> Option<BinaryOp>
    ensures level { option_map binary_level result ≡ operator_level punct }
    ensures operator { IfSome result (λ op. punct ≡ binary_mark op) }
{
    match punct {
        Punct::Star => Some(BinaryOp::Multiply),
        Punct::Slash => Some(BinaryOp::Divide),
        Punct::Percent => Some(BinaryOp::Remainder),
        Punct::Plus => Some(BinaryOp::Add),
        Punct::Minus => Some(BinaryOp::Subtract),
        Punct::ShiftLeft => Some(BinaryOp::ShiftLeft),
        Punct::ShiftRight => Some(BinaryOp::ShiftRight),
        Punct::Less => Some(BinaryOp::Less),
        Punct::Greater => Some(BinaryOp::Greater),
        Punct::LessEqual => Some(BinaryOp::LessEqual),
        Punct::GreaterEqual => Some(BinaryOp::GreaterEqual),
        Punct::EqualEqual => Some(BinaryOp::Equal),
        Punct::BangEqual => Some(BinaryOp::NotEqual),
        Punct::Amp => Some(BinaryOp::BitAnd),
        Punct::Caret => Some(BinaryOp::BitXor),
        Punct::Pipe => Some(BinaryOp::BitOr),
        Punct::AmpAmp => Some(BinaryOp::And),
        Punct::PipePipe => Some(BinaryOp::Or),
        _ => None,
    }
}

/// Whether an operation with this operator may stand where an operand of the precedence is to
/// stand.
fn fits(precedence: Precedence, suffix: Suffix) -> bool
    ensures { result ≡ allowed (nonterminal_of precedence) (suffix_production suffix) }
{
    is_within(operation_precedence(suffix), Some(precedence))
}

/// Whether an expression may stand in front of this operator.
fn takes(suffix: Suffix, left: &Expr) -> bool
    ensures { result ≡ allowed (predict.left (suffix_production suffix)) (production_of (expr_tree
        left.now)) }
{
    is_within(precedence_of(left), left_precedence(suffix))
}

/// Whether operands of the inner precedence may stand where one of the outer is to stand. None is
/// that of postfix expressions, which bind tightest.
fn is_within(inner: Option<Precedence>, outer: Option<Precedence>) -> bool
    ensures { result ≡ nat_le (nonterminal_number (operand_of inner)) (nonterminal_number
        (operand_of outer)) }
{
    looseness(inner) <= looseness(outer)
}

/// The index of a precedence in their order, the tightest first.
fn looseness(precedence: Option<Precedence>) -> u8
    ensures { result ≡ nonterminal_number (operand_of precedence) }
{
    match precedence {
        None => 0,
        Some(precedence) => precedence as u8 + 1,
    }
}

/// The precedence of an operation with this operator, none for a postfix expression.
fn operation_precedence(suffix: Suffix) -> Option<Precedence>
    ensures { operand_of result ≡ (rule (suffix_production suffix)).of }
{
    match suffix {
        Suffix::Index | Suffix::Call | Suffix::Select(_) | Suffix::IncDec(_) => None,
        Suffix::Binary(op) => Some(binary_precedence(op)),
        Suffix::Conditional => Some(Precedence::Conditional),
        Suffix::Assign(_) => Some(Precedence::Assignment),
    }
}

/// The loosest precedence of a left operand of this operator, none for a postfix expression.
fn left_precedence(suffix: Suffix) -> Option<Precedence>
    ensures { operand_of result ≡ predict.left (suffix_production suffix) }
{
    match suffix {
        Suffix::Index | Suffix::Call | Suffix::Select(_) | Suffix::IncDec(_) => None,
        Suffix::Assign(_) => Some(Precedence::Unary),
        Suffix::Binary(op) => Some(binary_precedence(op)),
        Suffix::Conditional => Some(Precedence::LogicalOr),
    }
}

/// The precedence of an operator's right operand, the next tighter one.
pub fn right_of(op: BinaryOp) -> Precedence
    ensures { nonterminal_of result ≡ tighter (binary_level op) }
{
    match op {
        BinaryOp::Multiply | BinaryOp::Divide | BinaryOp::Remainder => Precedence::Cast,
        BinaryOp::Add | BinaryOp::Subtract => Precedence::Multiplicative,
        BinaryOp::ShiftLeft | BinaryOp::ShiftRight => Precedence::Additive,
        BinaryOp::Less | BinaryOp::Greater | BinaryOp::LessEqual | BinaryOp::GreaterEqual =>
            Precedence::Shift,
        BinaryOp::Equal | BinaryOp::NotEqual => Precedence::Relational,
        BinaryOp::BitAnd => Precedence::Equality,
        BinaryOp::BitXor => Precedence::BitAnd,
        BinaryOp::BitOr => Precedence::BitXor,
        BinaryOp::And => Precedence::BitOr,
        BinaryOp::Or => Precedence::LogicalAnd,
    }
}

/// The precedence of a binary operation.
fn binary_precedence(op: BinaryOp) -> Precedence
    ensures { nonterminal_of result ≡ nonterminal.Binary (binary_level op) }
{
    match op {
        BinaryOp::Multiply | BinaryOp::Divide | BinaryOp::Remainder => Precedence::Multiplicative,
        BinaryOp::Add | BinaryOp::Subtract => Precedence::Additive,
        BinaryOp::ShiftLeft | BinaryOp::ShiftRight => Precedence::Shift,
        BinaryOp::Less | BinaryOp::Greater | BinaryOp::LessEqual | BinaryOp::GreaterEqual =>
            Precedence::Relational,
        BinaryOp::Equal | BinaryOp::NotEqual => Precedence::Equality,
        BinaryOp::BitAnd => Precedence::BitAnd,
        BinaryOp::BitXor => Precedence::BitXor,
        BinaryOp::BitOr => Precedence::BitOr,
        BinaryOp::And => Precedence::LogicalAnd,
        BinaryOp::Or => Precedence::LogicalOr,
    }
}

/// The precedence of an expression, none for a postfix expression.
fn precedence_of(expr: &Expr) -> Option<Precedence>
    ensures { operand_of result ≡ (rule (production_of (expr_tree expr.now))).of }
{
    match expr {
        Expr::Increment { .. }
        | Expr::Unary { .. }
        | Expr::Sizeof { .. }
        | Expr::SizeofType { .. } => Some(Precedence::Unary),
        Expr::Cast { .. } => Some(Precedence::Cast),
        Expr::Binary { op, .. } => Some(binary_precedence(*op)),
        Expr::Conditional { .. } => Some(Precedence::Conditional),
        Expr::Assign { .. } => Some(Precedence::Assignment),
        Expr::Name(_) | Expr::Number { .. } | Expr::Char { .. } | Expr::Text { .. } => None,
        Expr::Paren { .. } | Expr::Index { .. } | Expr::Call { .. } => None,
        Expr::Select { .. } | Expr::PostIncrement { .. } => None,
    }
}
