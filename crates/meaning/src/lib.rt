// Document 01 as definitions and nothing else: they stand in specs/, one file a subject, in the document's order.
#![tactic(auto)]
