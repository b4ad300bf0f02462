//! The description of a small imperative language.

/// Programs of declarations and statements, with procedures of one parameter.
pub const IMP: [u8; 3676] = *b"grammar
Prog = [[ \"program\" Decls \"begin\" Stmts \"end\" ]] .
Decls = [[ ]] | [[ Decls Decl ]] .
Decl = [[ \"var\" identifier \":=\" Expr \";\" ]]
  | [[ \"proc\" identifier \"(\" identifier \")\" \"begin\" Stmts \"end\" ]] .
Stmts = [[ ]] | [[ Stmts Stmt ]] .
Stmt = [[ identifier \":=\" Expr \";\" ]] | [[ \"print\" Expr \";\" ]]
  | [[ \"while\" Test \"do\" Stmts \"done\" ]]
  | [[ \"if\" Test \"then\" Stmts \"else\" Stmts \"fi\" ]]
  | [[ \"call\" identifier \"(\" Expr \")\" \";\" ]] .
Expr = [[ Term ]] | [[ Expr \"+\" Term ]] | [[ Expr \"-\" Term ]] .
Term = [[ Fact ]] | [[ Term \"*\" Fact ]] | [[ Term \"/\" Fact ]] .
Fact = [[ numeral ]] | [[ identifier ]] | [[ \"(\" Expr \")\" ]] | [[ \"read\" ]] .
Test = [[ Expr \"<\" Expr ]] | [[ Expr \"=\" Expr ]] | [[ \"not\" Test ]] .
semantics
run _ : Prog .
elaborate-all _ : Decls .
elaborate _ : Decl .
execute-all _ : Stmts .
execute _ : Stmt .
evaluate _ : Expr .
term _ : Term .
factor _ : Fact .
decide _ : Test .
run [[ \"program\" D:Decls \"begin\" S:Stmts \"end\" ]] =
  furthermore elaborate-all D hence execute-all S .
elaborate-all [[ ]] = complete .
elaborate-all [[ D:Decls X:Decl ]] = elaborate-all D before elaborate X .
elaborate [[ \"var\" I:identifier \":=\" E:Expr \";\" ]] =
  (evaluate E and allocate a cell) then
  ((store the given integer # 1 in the given cell # 2) and
   (bind token of I to the given cell # 2)) .
elaborate [[ \"proc\" I:identifier \"(\" J:identifier \")\" \"begin\" S:Stmts \"end\" ]] =
  recursively bind token of I to closure abstraction of (
    furthermore ((regive and allocate a cell) then
      ((store the given integer # 1 in the given cell # 2) and
       (bind token of J to the given cell # 2)))
    hence execute-all S) .
execute-all [[ ]] = complete .
execute-all [[ S:Stmts X:Stmt ]] = execute-all S and then execute X .
execute [[ I:identifier \":=\" E:Expr \";\" ]] =
  evaluate E then store the given integer in the cell bound to token of I .
execute [[ \"print\" E:Expr \";\" ]] = evaluate E then send the given integer .
execute [[ \"while\" T:Test \"do\" S:Stmts \"done\" ]] =
  complete then unfolding (decide T then
    (((check the given truth-value) and then
      (complete then (execute-all S and then unfold)))
     or (check not(the given truth-value)))) .
execute [[ \"if\" T:Test \"then\" A:Stmts \"else\" B:Stmts \"fi\" ]] =
  decide T then
    (((check the given truth-value) and then execute-all A) or
     ((check not(the given truth-value)) and then execute-all B)) .
execute [[ \"call\" I:identifier \"(\" E:Expr \")\" \";\" ]] =
  evaluate E then enact application of
    the abstraction bound to token of I to the given integer .
evaluate [[ T:Term ]] = term T .
evaluate [[ E:Expr \"+\" T:Term ]] = (evaluate E and term T) then
  give sum(the given integer # 1, the given integer # 2) .
evaluate [[ E:Expr \"-\" T:Term ]] = (evaluate E and term T) then
  give difference(the given integer # 1, the given integer # 2) .
term [[ F:Fact ]] = factor F .
term [[ T:Term \"*\" F:Fact ]] = (term T and factor F) then
  give product(the given integer # 1, the given integer # 2) .
term [[ T:Term \"/\" F:Fact ]] = (term T and factor F) then
  give integer-quotient(the given integer # 1, the given integer # 2) .
factor [[ N:numeral ]] = give value of N .
factor [[ I:identifier ]] =
  give the integer stored in the cell bound to token of I .
factor [[ \"(\" E:Expr \")\" ]] = evaluate E .
factor [[ \"read\" ]] = receive an integer .
decide [[ X:Expr \"<\" Y:Expr ]] = (evaluate X and evaluate Y) then
  give is less than(the given integer # 1, the given integer # 2) .
decide [[ X:Expr \"=\" Y:Expr ]] = (evaluate X and evaluate Y) then
  give is(the given integer # 1, the given integer # 2) .
decide [[ \"not\" T:Test ]] =
  decide T then give not(the given truth-value) .
end .
";
