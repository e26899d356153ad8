//! Statements (ISO 9899:2011, 6.8).
#![tactic(auto, using(crate::proofs::StatementLemmas::statements), unfolding(c_ast::specs::Reader::children, c_ast::specs::Reader::one, c_ast::specs::PredictSets::begins_optional, c_ast::specs::PredictSets::begins_repeated, c_ast::specs::Grammar::rule, c_ast::specs::Grammar::symbols_of, c_ast::specs::Grammar::optional, c_ast::specs::Grammar::repeated, c_parse_tokens::specs::Operands::nonterminal_of, c_ast::specs::Statements::start_tree, c_ast::specs::Statements::label_tree, c_ast::specs::Statements::else_children))]

ghost use Rattle.std.specs.Prelude.{◌≡◌, ◌<◌, ◌-◌, [], ◌∷◌, Some, IfOk, IfErr};
ghost use Rattle.c_ast.specs.Nonterminals as nonterminal;
ghost use Rattle.c_ast.specs.Nonterminals.{Opt, Many};
ghost use Rattle.c_ast.specs.Productions as production;
ghost use Rattle.c_ast.specs.Statements.{clause, else_children, start_tree, label_tree, labels_tree, stmt_tree, stmts_tree, item_tree, items_tree, block_tree, group_tree, groups_tree};
ghost use Rattle.c_ast.specs.Nodes.{node, word};
ghost use Rattle.c_lex.specs.declared.keyword.Keyword.TheVariants as w;
ghost use Rattle.c_parse_tokens.specs.declared.fault.Fault.TheVariants as fault;
ghost use Rattle.c_ast.specs.Reader.{Read, read, begun, turns, and_then};
ghost use Rattle.c_parse_tokens.specs.Ahead.{simple_production};
ghost use Rattle.c_parse.specs.Made.{if_tree};
ghost use Rattle.c_parse_tokens.specs.Reading.{Gives};

use crate::declaration::locals;
use c_ast::{
    Block, BlockItem, Else, ExprList, ForClauses, ForHeader, ForStart, Group, Label, Span, Stmt,
    Subject,
};
use c_lex::{Keyword, Punct};
use c_parse_tokens::{
    Fault, LabelStart, Precedence, SimpleStart, StmtStart, Tokens, expression, operand, read_list,
    try_with,
};
use sqlite_items::{Boxed, Items};

/// An `if` and the statement that it chooses.
#[derive(Drop)]
struct IfThen {
    keyword: Span,
    opening: Span,
    condition: ExprList,
    closing: Span,
    then: Boxed<Stmt>,
}

impl IfThen {
    fn alone(self) -> Stmt
        ensures { stmt_tree result ≡ if_tree self }
    {
        Stmt::If {
            keyword: self.keyword,
            open: self.opening,
            condition: self.condition,
            close: self.closing,
            then: self.then,
            otherwise: None,
        }
    }

    fn with_else(self, otherwise: Boxed<Else>) -> Stmt
        ensures { stmt_tree result ≡ node production.IfElse (if_tree self ∷ else_children
            otherwise) }
    {
        Stmt::If {
            keyword: self.keyword,
            open: self.opening,
            condition: self.condition,
            close: self.closing,
            then: self.then,
            otherwise: Some(otherwise),
        }
    }
}

/// A comma expression, where one is written.
fn clause(tokens: &mut Tokens, fuel: usize) -> Result<Option<ExprList>, Fault>
    ensures { Gives clause (read fuel (Opt production.Clause) tokens.old) result tokens.new }
{
    if fuel == 0 {
        return Err(Fault::OutOfFuel);
    }
    if !tokens.sees_expression() {
        return Ok(None);
    }
    let value = expression(tokens, fuel - 1)?;
    Ok(Some(value))
}

/// What stands before the condition of a `for`.
fn for_start(tokens: &mut Tokens, fuel: usize) -> Result<ForStart, Fault>
    ensures { Gives start_tree (read fuel nonterminal.ForFirst tokens.old) result tokens.new }
{
    if fuel == 0 {
        return Err(Fault::OutOfFuel);
    }
    if tokens.sees_type() {
        let locals = locals(tokens, fuel)?;
        return Ok(ForStart::Locals(locals));
    }
    let value = clause(tokens, fuel - 1)?;
    let semicolon = try_with!(tokens.expect(Punct::Semicolon); value);
    Ok(ForStart::Clause { value, semicolon })
}

/// A label of a `switch`.
fn label(tokens: &mut Tokens, fuel: usize) -> Result<Label, Fault>
    ensures { Gives label_tree (read fuel nonterminal.GroupLabel tokens.old) result tokens.new }
{
    if fuel == 0 {
        return Err(Fault::OutOfFuel);
    }
    match tokens.label_start() {
        None => Err(Fault::Syntax),
        Some(LabelStart::Case) => case_label(tokens, fuel - 1),
        Some(LabelStart::Default) => {
            let keyword = tokens.expect_keyword(Keyword::Default)?;
            let colon = tokens.expect(Punct::Colon)?;
            Ok(Label::Default { keyword, colon })
        }
    }
}

fn case_label(tokens: &mut Tokens, fuel: usize) -> Result<Label, Fault>
    ensures { Gives label_tree (begun (read fuel) (Some production.Case) tokens.old) result
        tokens.new }
{
    let keyword = tokens.expect_keyword(Keyword::Case)?;
    let value = operand(tokens, fuel, Precedence::Conditional)?;
    let colon = try_with!(tokens.expect(Punct::Colon); value);
    Ok(Label::Case {
        keyword,
        value,
        colon,
    })
}

/// Labels after the first one.
fn labels(tokens: &mut Tokens, fuel: usize) -> Result<Items<Label>, Fault>
    ensures { Gives labels_tree (read fuel (Many production.MoreLabels) tokens.old) result
        tokens.new }
{
    if fuel == 0 {
        return Err(Fault::OutOfFuel);
    }
    let mut labels = Items::new(tokens.alloc);
    read_list!(labels, _turn in fuel; tokens.sees_label(); label(tokens, fuel - 1)?)
}

/// A statement that begins so and holds no other.
fn simple_statement(tokens: &mut Tokens, fuel: usize, start: SimpleStart) -> Result<Stmt, Fault>
    ensures { Gives stmt_tree (begun (read fuel) (Some (simple_production start)) tokens.old)
        result tokens.new }
{
    match start {
        SimpleStart::Null => {
            let semicolon = tokens.expect(Punct::Semicolon)?;
            Ok(Stmt::Null(semicolon))
        }
        SimpleStart::Expression => expression_statement(tokens, fuel),
        SimpleStart::Break => {
            let keyword = tokens.expect_keyword(Keyword::Break)?;
            let semicolon = tokens.expect(Punct::Semicolon)?;
            Ok(Stmt::Break { keyword, semicolon })
        }
        SimpleStart::Continue => {
            let keyword = tokens.expect_keyword(Keyword::Continue)?;
            let semicolon = tokens.expect(Punct::Semicolon)?;
            Ok(Stmt::Continue { keyword, semicolon })
        }
        SimpleStart::Return => return_statement(tokens, fuel),
    }
}

fn expression_statement(tokens: &mut Tokens, fuel: usize) -> Result<Stmt, Fault>
    ensures { Gives stmt_tree (begun (read fuel) (Some production.Expression) tokens.old) result
        tokens.new }
{
    let value = expression(tokens, fuel)?;
    let semicolon = try_with!(tokens.expect(Punct::Semicolon); value);
    Ok(Stmt::Expr { value, semicolon })
}

fn return_statement(tokens: &mut Tokens, fuel: usize) -> Result<Stmt, Fault>
    ensures { Gives stmt_tree (begun (read fuel) (Some production.Return) tokens.old) result
        tokens.new }
{
    let keyword = tokens.expect_keyword(Keyword::Return)?;
    let value = clause(tokens, fuel)?;
    let semicolon = try_with!(tokens.expect(Punct::Semicolon); value);
    Ok(Stmt::Return {
        keyword,
        value,
        semicolon,
    })
}

/// A statement.
#[cycle(statement)]
fn statement(tokens: &mut Tokens, fuel: usize) -> Result<Stmt, Fault>
    ensures { Gives stmt_tree (read fuel nonterminal.Stmt tokens.old) result tokens.new }
{
    if fuel == 0 {
        return Err(Fault::OutOfFuel);
    }
    match tokens.stmt_start() {
        None => Err(Fault::Syntax),
        Some(StmtStart::If) => if_statement(tokens, fuel),
        Some(StmtStart::Simple(start)) => simple_statement(tokens, fuel - 1, start),
        Some(StmtStart::Block) => {
            let block = block(tokens, fuel)?;
            Ok(Stmt::Block(block))
        }
        Some(StmtStart::While) => while_statement(tokens, fuel - 1),
        Some(StmtStart::Do) => do_statement(tokens, fuel - 1),
        Some(StmtStart::For) => for_statement(tokens, fuel - 1),
        Some(StmtStart::Switch) => switch_statement(tokens, fuel - 1),
    }
}

/// A statement on the heap.
#[cycle(statement)]
fn boxed_statement(tokens: &mut Tokens, fuel: usize) -> Result<Boxed<Stmt>, Fault>
    ensures { Gives stmt_tree (read fuel nonterminal.Stmt tokens.old) result tokens.new }
{
    let statement = statement(tokens, fuel)?;
    Ok(Boxed::new(tokens.alloc, statement)?)
}

/// An `if`, with its `else` where one follows.
#[cycle(statement)]
fn if_statement(tokens: &mut Tokens, fuel: usize) -> Result<Stmt, Fault>
    requires { 0 < fuel }
    ensures { Gives stmt_tree (and_then (begun (read (fuel - 1)) (Some production.If) tokens.old)
        (turns (read (fuel - 1)) fuel nonterminal.Stmt)) result tokens.new }
{
    let keyword = tokens.expect_keyword(Keyword::If)?;
    let opening = tokens.expect(Punct::LParen)?;
    let condition = expression(tokens, fuel - 1)?;
    let closing = try_with!(tokens.expect(Punct::RParen); condition);
    let then = try_with!(boxed_statement(tokens, fuel - 1); condition);
    if_rest(
        tokens,
        fuel,
        IfThen {
            keyword,
            opening,
            condition,
            closing,
            then,
        },
    )
}

/// `else` and its statement, where they follow this `if`.
#[cycle(statement)]
fn if_rest(tokens: &mut Tokens, fuel: usize, head: IfThen) -> Result<Stmt, Fault>
    requires { 0 < fuel }
    ensures { Gives stmt_tree (turns (read (fuel - 1)) fuel nonterminal.Stmt (if_tree head)
        tokens.old) result tokens.new }
{
    if !tokens.sees_keyword(Keyword::Else) {
        return Ok(head.alone());
    }
    let keyword = try_with!(tokens.expect_keyword(Keyword::Else); head);
    let body = try_with!(boxed_statement(tokens, fuel - 1); head);
    let otherwise = try_with!(boxed_else(tokens, keyword, body); head);
    Ok(head.with_else(otherwise))
}

/// `else` and its statement on the heap.
fn boxed_else(tokens: &Tokens, keyword: Span, body: Boxed<Stmt>) -> Result<Boxed<Else>, Fault>
    ensures children { IfOk result (λ e. else_children e ≡ word w.Else keyword ∷ stmt_tree body
        ∷ []) }
    ensures error { IfErr result (λ e. e ≡ fault.NoMemory) }
{
    Ok(Boxed::new(tokens.alloc, Else { keyword, body })?)
}

#[cycle(statement)]
fn while_statement(tokens: &mut Tokens, fuel: usize) -> Result<Stmt, Fault>
    ensures { Gives stmt_tree (begun (read fuel) (Some production.While) tokens.old) result
        tokens.new }
{
    let keyword = tokens.expect_keyword(Keyword::While)?;
    let open = tokens.expect(Punct::LParen)?;
    let condition = expression(tokens, fuel)?;
    let close = try_with!(tokens.expect(Punct::RParen); condition);
    let body = try_with!(boxed_statement(tokens, fuel); condition);
    Ok(Stmt::While {
        keyword,
        open,
        condition,
        close,
        body,
    })
}

#[cycle(statement)]
fn do_statement(tokens: &mut Tokens, fuel: usize) -> Result<Stmt, Fault>
    ensures { Gives stmt_tree (begun (read fuel) (Some production.DoWhile) tokens.old) result
        tokens.new }
{
    let keyword = tokens.expect_keyword(Keyword::Do)?;
    let body = boxed_statement(tokens, fuel)?;
    let until = tokens.expect_keyword(Keyword::While)?;
    let open = tokens.expect(Punct::LParen)?;
    let condition = expression(tokens, fuel)?;
    let close = try_with!(tokens.expect(Punct::RParen); condition);
    let semicolon = try_with!(tokens.expect(Punct::Semicolon); condition);
    Ok(Stmt::Do {
        keyword,
        body,
        until,
        open,
        condition,
        close,
        semicolon,
    })
}

#[cycle(statement)]
fn for_statement(tokens: &mut Tokens, fuel: usize) -> Result<Stmt, Fault>
    ensures { Gives stmt_tree (begun (read fuel) (Some production.For) tokens.old) result
        tokens.new }
{
    let keyword = tokens.expect_keyword(Keyword::For)?;
    let open = tokens.expect(Punct::LParen)?;
    let start = for_start(tokens, fuel)?;
    let condition = try_with!(clause(tokens, fuel); start);
    let semicolon = try_with!(tokens.expect(Punct::Semicolon); start, condition);
    let step = try_with!(clause(tokens, fuel); start, condition);
    let clauses = ForClauses {
        start,
        condition,
        semicolon,
        step,
    };
    let clauses = Boxed::new(tokens.alloc, clauses)?;
    let close = tokens.expect(Punct::RParen)?;
    let body = boxed_statement(tokens, fuel)?;
    Ok(Stmt::For {
        keyword,
        open,
        header: ForHeader { clauses },
        close,
        body,
    })
}

#[cycle(statement)]
fn switch_statement(tokens: &mut Tokens, fuel: usize) -> Result<Stmt, Fault>
    ensures { Gives stmt_tree (begun (read fuel) (Some production.Switch) tokens.old) result
        tokens.new }
{
    let keyword = tokens.expect_keyword(Keyword::Switch)?;
    let open = tokens.expect(Punct::LParen)?;
    let value = expression(tokens, fuel)?;
    let value = Boxed::new(tokens.alloc, value)?;
    let close = tokens.expect(Punct::RParen)?;
    let begin = tokens.expect(Punct::LBrace)?;
    let groups = groups(tokens, fuel)?;
    let end = tokens.expect(Punct::RBrace)?;
    Ok(Stmt::Switch {
        keyword,
        subject: Subject { open, value, close },
        begin,
        groups,
        end,
    })
}

/// Groups of a `switch`.
#[cycle(statement)]
fn groups(tokens: &mut Tokens, fuel: usize) -> Result<Items<Group>, Fault>
    ensures { Gives groups_tree (read fuel (Many production.Groups) tokens.old) result tokens.new }
{
    if fuel == 0 {
        return Err(Fault::OutOfFuel);
    }
    let mut groups = Items::new(tokens.alloc);
    read_list!(groups, _turn in fuel; tokens.sees_label(); group(tokens, fuel - 1)?)
}

/// Labels and the statements after them.
#[cycle(statement)]
fn group(tokens: &mut Tokens, fuel: usize) -> Result<Group, Fault>
    ensures { Gives group_tree (read fuel nonterminal.Group tokens.old) result tokens.new }
{
    if fuel == 0 {
        return Err(Fault::OutOfFuel);
    }
    let first = label(tokens, fuel - 1)?;
    let more = try_with!(labels(tokens, fuel - 1); first);
    labelled(tokens, fuel - 1, first, more)
}

/// The statements after these labels.
#[cycle(statement)]
fn labelled(
    tokens: &mut Tokens,
    fuel: usize,
    front: Label,
    labels: Items<Label>,
) -> Result<Group, Fault>
    ensures { Gives group_tree (and_then (read fuel nonterminal.Stmt tokens.old) (λ t k. and_then
        (read fuel (Many production.MoreStmts) k) (λ u j. Read (node production.Group
        (label_tree front ∷ labels_tree labels ∷ t ∷ u ∷ [])) j))) result tokens.new }
{
    let first = try_with!(boxed_statement(tokens, fuel); front);
    let more = try_with!(more_statements(tokens, fuel); front);
    Ok(Group {
        label: front,
        labels,
        first,
        more,
    })
}

/// Statements after the first one of a group.
#[cycle(statement)]
fn more_statements(tokens: &mut Tokens, fuel: usize) -> Result<Items<Stmt>, Fault>
    ensures { Gives stmts_tree (read fuel (Many production.MoreStmts) tokens.old) result
        tokens.new }
{
    if fuel == 0 {
        return Err(Fault::OutOfFuel);
    }
    let mut more = Items::new(tokens.alloc);
    read_list!(more, _turn in fuel; tokens.sees_statement(); statement(tokens, fuel - 1)?)
}

/// A block.
#[cycle(statement)]
pub(crate) fn block(tokens: &mut Tokens, fuel: usize) -> Result<Block, Fault>
    ensures { Gives block_tree (read fuel nonterminal.Block tokens.old) result tokens.new }
{
    if fuel == 0 {
        return Err(Fault::OutOfFuel);
    }
    let open = tokens.expect(Punct::LBrace)?;
    let items = items(tokens, fuel - 1)?;
    let close = tokens.expect(Punct::RBrace)?;
    Ok(Block { open, items, close })
}

/// Items of a block.
#[cycle(statement)]
fn items(tokens: &mut Tokens, fuel: usize) -> Result<Items<BlockItem>, Fault>
    ensures { Gives items_tree (read fuel (Many production.Items) tokens.old) result tokens.new }
{
    if fuel == 0 {
        return Err(Fault::OutOfFuel);
    }
    let mut items = Items::new(tokens.alloc);
    read_list!(items, _turn in fuel; tokens.sees_item(); item(tokens, fuel - 1)?)
}

/// A statement, or a declaration of variables.
#[cycle(statement)]
fn item(tokens: &mut Tokens, fuel: usize) -> Result<BlockItem, Fault>
    ensures { Gives item_tree (read fuel nonterminal.Item tokens.old) result tokens.new }
{
    if tokens.sees_type() {
        let locals = locals(tokens, fuel)?;
        Ok(BlockItem::Locals(locals))
    } else {
        let statement = statement(tokens, fuel)?;
        Ok(BlockItem::Stmt(statement))
    }
}
